//! Laws of answers.
ghost use Rattle.std.specs.Prelude.{◌≡◌, ℕ, List, Option};
ghost use Rattle.reg_names.specs.declared.reference.Reference.{Reference};
ghost use Rattle.manifest_doc.specs.declared.pushed.Pushed.{Pushed};
ghost use Rattle.reg_entries.specs.State.{State};
ghost use Rattle.reg_entries.specs.declared.ask.Ask.{Ask as Asked};
ghost use Rattle.reg_entries.specs.declared.reply.Reply.{Reply as Replied};
ghost use Rattle.reg_model.specs.Facts.{Facts};
ghost use Rattle.reg_model.specs.Answers.{Answer, IsAnswer, IsReply, AreAlike};
ghost use Rattle.reg_model.specs.Changing.{HasOneOutcome, Starts, Pushes, Drops, Unlinks};

/// An ask has one answer.
pub fn answers_are_one()
    ensures { (facts : Facts) (ask : Asked) (one two : Answer)
        → IsAnswer facts ask one → IsAnswer facts ask two → one ≡ two }
{}

/// What is answered follows from the state: the replies to an ask in one state differ at most in the bytes of a manifest,
/// and these have one digest and one size.
pub fn replies_follow_the_state()
    ensures { (state : State) (ask : Asked) (one two : Replied)
        → IsReply state ask one → IsReply state ask two → AreAlike one two }
{}

/// A request that changes comes to one outcome, where all that it looks up is told.
pub fn outcomes_are_one()
    ensures starts { (name id : List ℕ) (mount : Option (List ℕ × List ℕ)) (now : ℕ)
        → HasOneOutcome (Starts name id mount now) }
    ensures pushes { (name : List ℕ) (at : Option Reference) (pushed : Pushed)
        → HasOneOutcome (Pushes name at pushed) }
    ensures drops { (name : List ℕ) (at : Option Reference) → HasOneOutcome (Drops name at) }
    ensures unlinks { (name digest : List ℕ) → HasOneOutcome (Unlinks name digest) }
{}
