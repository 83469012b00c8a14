//! Laws of sessions.
ghost use Rattle.std.specs.Prelude.{◌≡◌, ℕ, false, List, ◌++◌, Option, Some};
ghost use Rattle.std.specs.List.{AllByRecursion};
ghost use Rattle.http_wire.specs.Messages.{Message, Ending, Messages};
ghost use Rattle.reg_world.specs.Worlds.{Data};
ghost use Rattle.reg_session.specs.declared.ended.Ended.{Ended as EndedWith};
ghost use Rattle.reg_session.specs.Chains.{own};
ghost use Rattle.reg_session.specs.Requests.{Request, Reads, AreMessagesOf, is_last, limits};
ghost use Rattle.reg_session.specs.Sessions.{At, here, FollowsInput};

/// Requests that were read one after the other, none of which ends the connection, are the first messages of the stream,
/// and the messages of the rest follow them.
pub fn served_are_messages()
    ensures { (requests : List Request) (old new : List ℕ) (more : List Message) (ending : Ending)
        → Reads requests old new → AllByRecursion (λ r. is_last r.parts ≡ false) requests
        → Messages limits new more ending
        → (messages : List Message) × AreMessagesOf requests messages
        × Messages limits old (messages ++ more) ending }
{}

/// An input has one text. Two sessions of one input, from one world that nobody else changes and whose depot tells what
/// it holds and does not fail, with the same number of the holder, the same moment of the clock and the same words to
/// come for ids, write the same and end alike, where the input ends them: no fault, no want of memory, and not 2^50
/// bytes.
pub fn an_input_has_one_text<B>()
    ensures { (who now : ℕ) (world : Data) (words : ℕ → List ℕ) (input written : List ℕ)
        (left : Option (List ℕ)) (one two : At) (ended other : EndedWith B)
        → (let old = here world (Some words) (Some input) left (Some written) in
        FollowsInput (own who (Some now)) old one ended
        → FollowsInput (own who (Some now)) old two other
        → (one.written ≡ two.written) × (ended ≡ other)) }
{}
