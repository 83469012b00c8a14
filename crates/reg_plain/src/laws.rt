//! Laws of answers.
ghost use Rattle.std.specs.Prelude.{◌≡◌, ℕ, List, length, IsTrue};
ghost use Rattle.reg_digest.specs.Hashing.{hashes_to};
ghost use Rattle.reg_names.specs.declared.kind.Kind.{Kind};
ghost use Rattle.reg_entries.specs.State.{State};
ghost use Rattle.reg_entries.specs.declared.ask.Ask.{Ask as Asked};
ghost use Rattle.reg_entries.specs.declared.reply.Reply.{Reply as Replied};
ghost use Rattle.reg_entries.specs.declared.reply.Reply.TheVariants as replies;
ghost use Rattle.reg_model.specs.Answers.{IsReply};
ghost use Rattle.reg_plain.specs.declared.answer.Plain.{Plain};
ghost use Rattle.reg_plain.specs.Answers.{IsPlain, Tells, TellsManifest};

/// What is answered to a pull is what the registry that one thread runs replies: it tells the same as each such reply, and
/// a manifest is replied with any bytes that have its digest and its size. The other answers are replies as they are.
pub fn answers_tell_replies()
    ensures told { (state : State) (ask : Asked) (plain : Plain) (reply : Replied)
        → IsPlain state ask plain → IsReply state ask reply → Tells plain reply }
    ensures replied { (state : State) (ask : Asked) (kind : Kind) (digest : List ℕ) (size : ℕ)
        (bytes : List ℕ) → TellsManifest state ask kind digest size
        → IsTrue (hashes_to digest bytes) → length bytes ≡ size
        → IsReply state ask (replies.Manifest kind digest bytes) }
{}
