//! Laws of claims.
ghost use Rattle.std.specs.Prelude.{◌≡◌, ◌+◌, ℕ, List, true, false, IsTrue};
ghost use Rattle.reg_claims.specs.Claims.{ClaimList, AreSound, is_same, is_of_session, has, is_held, with_claim, without};
ghost use Rattle.reg_claims.specs.declared.claim.Claim.{Claim as Claimed};
ghost use Rattle.reg_claims.specs.declared.claim.Claim.TheVariants as kinds;

/// Two claims that stand and are of one session are one claim.
pub fn no_session_has_two_claims()
    ensures { (claims : ClaimList) (one two : Claimed) (name id : List ℕ) → AreSound claims
        → IsTrue (has one claims) → IsTrue (has two claims)
        → IsTrue (is_of_session name id one) → IsTrue (is_of_session name id two) → one ≡ two }
{}

/// A claim that is made stands, and every other claim stands as before.
pub fn making_adds_one_claim()
    ensures made { (claims : ClaimList) (who : ℕ) (claim : Claimed)
        → has claim (with_claim who claim claims) ≡ true }
    ensures others { (claims : ClaimList) (who : ℕ) (claim other : Claimed)
        → is_same other claim ≡ false → has other (with_claim who claim claims) ≡ has other claims }
{}

/// A claim that is ended stands no more, and every other claim stands as before.
pub fn ending_ends_one_claim()
    ensures ended { (claims : ClaimList) (claim : Claimed)
        → has claim (without claim claims) ≡ false }
    ensures others { (claims : ClaimList) (claim other : Claimed)
        → is_same claim other ≡ false → has other (without claim claims) ≡ has other claims }
{}

/// A session is free once its claim has ended.
pub fn a_claim_that_ended_frees_its_session()
    ensures { (claims : ClaimList) (number : ℕ) (name id : List ℕ) → AreSound claims
        → IsTrue (has (kinds.Session number name id) claims)
        → is_held name id (without (kinds.Session number name id) claims) ≡ false }
{}

/// A claim that is made and ended leaves the claims as they were, but for the next number.
pub fn what_is_made_and_ended_leaves_a_number()
    ensures { (claims : ClaimList) (who : ℕ) (name id : List ℕ) → AreSound claims
        → (let claim = kinds.Session claims.next name id in
        without claim (with_claim who claim claims) ≡ record claims { next = claims.next + 1 }) }
{}
