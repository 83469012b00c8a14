//! Laws of sessions.
ghost use Rattle.std.specs.Prelude.{◌≡◌, ◌+◌, ◌++◌, ℕ, List, false, Option, Some, Result, Ok, IsTrue, length};
ghost use Rattle.reg_names.specs.Names.{IsName};
ghost use Rattle.reg_names.specs.UploadIds.{IsUploadId};
ghost use Rattle.reg_digest.specs.Hashing.{hashes_to};
ghost use Rattle.depot_api.specs.Changes.{with_lent, with_shelved, IsLentOf};
ghost use Rattle.depot_api.specs.Holdings.{Holding};
ghost use Rattle.depot_api.specs.Stages.{Staged, CountsStaged, PutsBehind};
ghost use Rattle.link_paths.specs.Places.{upload_data_path};
ghost use Rattle.reg_claims.specs.Claims.{ClaimList, AreSound, with_claim, without};
ghost use Rattle.reg_claims.specs.declared.claim.Claim.TheVariants as kinds;
ghost use Rattle.reg_model.specs.Uploads.{upload_at, is_busy, met_by};
ghost use Rattle.upload_sessions.specs.Meeting.{Meets};
ghost use Rattle.upload_sessions.specs.Sealing.{IsSealOf};
ghost use Rattle.upload_sessions.specs.Taking.{MeetsFrom};

/// What is appended to a stage and sealed is the bytes that were there and the new ones behind them.
pub fn what_is_appended_is_sealed()
    ensures { (before appended : Staged) (piece digest : List ℕ) (size : ℕ)
        → IsTrue appended.tells → CountsStaged appended
        → PutsBehind piece before.bytes appended.bytes (Ok (tt {0})) → IsSealOf appended digest size
        → IsTrue (hashes_to digest (before.bytes ++ piece))
        × (size ≡ length before.bytes + length piece) }
{}

/// Over a depot that tells its files, a request meets what the one-thread registry has of the upload.
pub fn what_is_met_is_what_is_there()
    ensures { (held : Holding) (claims : ClaimList) (name : List ℕ) (id : Option (List ℕ))
        (met : Result (List ℕ × ℕ) ℕ) → IsTrue held.tells → Meets held claims name id met
        → met ≡ met_by (upload_at held.files name) (is_busy held claims name) id }
{}

/// Over such a depot the bytes that are lent end where the upload ends.
pub fn what_is_lent_ends_where_the_upload_ends()
    ensures { (held : Holding) (claims : ClaimList) (name : List ℕ) (id : Option (List ℕ))
        (start : Option ℕ) (key : List ℕ) (ends : ℕ) (staged : Staged) → IsTrue held.tells
        → MeetsFrom held claims name id start (Ok (key, ends))
        → IsLentOf held (upload_data_path name key) staged → staged.count ≡ ends }
{}

/// A session that is taken and shelved, with nothing between, is as it was, and so is every other one: each ends where
/// it ended, and is claimed and lent as it was. Its bytes are the same ones, and none where there were none. Of the claims
/// the number of the next one has risen.
pub fn a_take_and_a_shelve_change_nothing()
    ensures bytes { (held : Holding) (at : List (List ℕ)) (staged : Staged) (bytes : List ℕ)
        → held.lent at ≡ false → IsLentOf held at staged → IsTrue held.tells
        → held.files at ≡ Some bytes → with_shelved (with_lent held at) staged ≡ held }
    ensures ends { (held : Holding) (name id other key : List ℕ) (staged : Staged)
        → IsName name → IsUploadId id → IsName other → IsUploadId key
        → held.lent (upload_data_path name id) ≡ false
        → IsLentOf held (upload_data_path name id) staged → IsTrue held.tells
        → (let back = with_shelved (with_lent held (upload_data_path name id)) staged in
        upload_at back.files other key ≡ upload_at held.files other key) }
    ensures loans { (held : Holding) (at : List (List ℕ)) (staged : Staged) → held.lent at ≡ false
        → IsLentOf held at staged → (with_shelved (with_lent held at) staged).lent ≡ held.lent }
    ensures claims { (claims : ClaimList) (who : ℕ) (name id : List ℕ) → AreSound claims
        → (let claim = kinds.Session claims.next name id in
        without claim (with_claim who claim claims) ≡ record claims { next = claims.next + 1 }) }
{}
