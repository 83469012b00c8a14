//! Methods of requests.
ghost use Rattle.std.specs.Prelude.{◌≡◌};
ghost use Rattle.std.specs.List.{find};
ghost use Rattle.reg_routes.specs.Targets.{is};
ghost use Rattle.reg_entries.specs.Routes.{method_text};

use reg_entries::Method;

/// The one of these methods that has that name.
pub(crate) fn method_in(methods: &[Method], name: &str) -> Option<Method>
    ensures { result ≡ find (λ m. is name.now (method_text m)) methods.now }
{
    for method in methods {
        if name == method.text() {
            return Some(*method);
        }
    }
    None
}
