//! The laws of the messages of a stream.
ghost use Rattle.std.specs.Prelude.{◌≡◌, ℕ, ◌+◌, ◌-◌, ◌≤◌, List, [], ◌∷◌, ◌++◌, length, Option, Some, None, false};
ghost use Rattle.depot_api.specs.Stages.{Staged};
ghost use Rattle.httparse.specs.Grammar.{RequestHead};
ghost use Rattle.http_wire.specs.Answers.{TellsHead};
ghost use Rattle.http_wire.specs.Bodies.{due};
ghost use Rattle.http_wire.specs.BodyAnswers.{state_of, IsStepEnd};
ghost use Rattle.http_wire.specs.Fields.{Shows};
ghost use Rattle.http_wire.specs.Filling.{Gains, TakesBody, IsTakingEnd, KeepsLimit};
ghost use Rattle.http_wire.specs.Messages.{Message, Ending, Limits, behind_first, Messages, ReadsMessage, is_last};
ghost use Rattle.http_wire.specs.Reading.{body_behind, Decodes, IsRead, ReadsMessages, behind_all, HeadEnds, StepEnds, TakingEnds};

use crate::{BodyReader, BodyStep, BodyTaken, Head, Heading};

/// A law: a stream has one list of messages at most, which ends in one way. So it does not matter
/// in which pieces it comes.
pub fn messages_are_one()
    ensures { (limits : Limits) (bytes : List ℕ) (one other : List Message) (end last : Ending)
        → Messages limits bytes one end → Messages limits bytes other last → (one ≡ other)
        × (end ≡ last) }
{}

/// A law: what stands behind a message that was read, and does not end the connection, are the
/// messages behind it.
pub fn messages_go_on()
    ensures { (limits : Limits) (bytes rest : List ℕ) (first : Message) (messages : List Message)
        (ending : Ending)
        → ReadsMessage (limits 0 first.head) bytes first rest → is_last first ≡ false
        → Messages limits bytes messages ending
        → (others : List Message) × (messages ≡ first ∷ others)
        × Messages (behind_first limits) rest others ending }
{}

/// A law: no spelling of a message begins that of another.
pub fn spellings_are_apart()
    ensures { (limit other_limit : Option ℕ) (bytes more : List ℕ) (one other : Message)
        → ReadsMessage limit bytes one [] → ReadsMessage other_limit (bytes ++ more) other []
        → more ≡ [] }
{}

/// A law: every stream has a list of messages, and an end of it; by `messages_are_one` it has no
/// other.
pub fn streams_have_messages()
    ensures { (limits : Limits) (bytes : List ℕ) → (messages : List Message) × (ending : Ending)
        × Messages limits bytes messages ending }
{}

/// A law: a head that was read, and the body behind it that was read or staged whole, are a message
/// of the stream. `reader` is that of the framing of the head, and `last` is where it stands behind
/// the body.
pub fn calls_read_messages()
    ensures decoded { (head : Head) (reader last : BodyReader) (old mid new body : List ℕ)
        → TellsHead (Heading.Head head) old mid
        → state_of reader ≡ body_behind head
        → Decodes (state_of reader) mid body (state_of last) new
        → IsStepEnd BodyStep.End (state_of last) new → (m : Message) × IsRead head body m
        × ReadsMessage None old m new }
    ensures staged { (head : Head) (reader last : BodyReader) (old mid new : List ℕ) (most n : ℕ)
        (before now : Staged)
        → TellsHead (Heading.Head head) old mid → state_of reader ≡ body_behind head
        → TakesBody (BodyTaken.Whole n) most (state_of reader) mid (state_of last) new before now
        → IsTakingEnd (BodyTaken.Whole n) (state_of last) new
        → KeepsLimit (BodyTaken.Whole n) most (now.count - before.count) (due (state_of last))
        → (body : List ℕ) × (m : Message) × IsRead head body m × Gains before now body
        × (length body ≡ n) × ReadsMessage (Some most) old m new }
{}

/// A law: messages that were read one behind the other, and those behind them, are the messages of
/// the stream.
pub fn messages_add_up()
    ensures more { (limits : Limits) (old mid new : List ℕ) (messages : List Message) (m : Message)
        → ReadsMessages limits old messages mid
        → ReadsMessage (limits (length messages) m.head) mid m new → is_last m ≡ false
        → ReadsMessages limits old (messages ++ m ∷ []) new }
    ensures ends { (limits : Limits) (old mid : List ℕ) (messages others : List Message)
        (ending : Ending) → ReadsMessages limits old messages mid
        → Messages (behind_all (length messages) limits) mid others ending
        → Messages limits old (messages ++ others) ending }
{}

/// A law: where no head is read, or a body is not read or staged whole, the answer says how the
/// messages end.
pub fn calls_end_messages()
    ensures heads { (limits : Limits) (answer : Heading) (old new : List ℕ) (ending : Ending)
        → TellsHead answer old new → HeadEnds answer ending
        → Messages limits old [] ending }
    ensures decoded { (limits : Limits) (head : Head) (reader last : BodyReader)
        (old mid new body : List ℕ) (step : BodyStep) (ending : Ending)
        → TellsHead (Heading.Head head) old mid → state_of reader ≡ body_behind head
        → ((h : RequestHead) → Shows head h → limits 0 h ≡ None)
        → Decodes (state_of reader) mid body (state_of last) new
        → IsStepEnd step (state_of last) new → StepEnds step ending
        → Messages limits old [] ending }
    ensures staged { (limits : Limits) (head : Head) (reader last : BodyReader)
        (old mid new : List ℕ) (most : ℕ) (answer : BodyTaken) (before now : Staged)
        (ending : Ending)
        → TellsHead (Heading.Head head) old mid → state_of reader ≡ body_behind head
        → now.count ≤ before.count + most
        → ((h : RequestHead) → Shows head h → limits 0 h ≡ Some most)
        → TakesBody answer most (state_of reader) mid (state_of last) new before now
        → IsTakingEnd answer (state_of last) new
        → KeepsLimit answer most (now.count - before.count) (due (state_of last))
        → TakingEnds answer ending → Messages limits old [] ending }
{}
