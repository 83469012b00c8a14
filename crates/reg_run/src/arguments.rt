//! Command-line arguments.
ghost use Rattle.std.specs.Prelude.{◌≡◌, Some, None, map};
ghost use Rattle.std.specs.Option.{MatchOption};
ghost use Rattle.std.specs.String.{string_bytes};
ghost use Rattle.reg_run.specs.Arguments.{are_arguments, is_value, root_in};

/// What is written where the arguments are refused.
pub const USAGE: &str = "usage: registry once|import|review|audit|gen|serve\n";

/// Whether the arguments are a command with its options, each option `--x v` with a value that is
/// not empty and does not begin with `-`.
pub fn are_accepted(arguments: &[String]) -> bool
    ensures { result ≡ are_arguments (map string_bytes arguments.now) }
{
    match arguments {
        [command] => command.as_str() == "once",
        [command, option, value] => {
            command.as_str() == "once" && option.as_str() == "--root" && is_option_value(value)
        }
        _ => false,
    }
}

/// The directory that `--root` names, where the arguments are accepted.
pub fn root(arguments: &[String]) -> Option<&str>
    ensures { MatchOption result (root_in (map string_bytes arguments.now) ≡ None)
        (λ root. root_in (map string_bytes arguments.now) ≡ Some root.now) }
{
    match arguments {
        [_, _, value] if are_accepted(arguments) => Some(value.as_str()),
        _ => None,
    }
}

fn is_option_value(value: &String) -> bool
    ensures { result ≡ is_value (string_bytes value.now) }
{
    match value.as_bytes() {
        [] => false,
        [first, ..] => *first != b'-',
    }
}
