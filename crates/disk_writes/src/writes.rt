//! Changes of numbered files, over any depot.
ghost use Rattle.std.specs.Prelude.{◌≡◌, ◌≤◌, ◌++◌, ℕ, List, IfOk, IsTrue, length};
ghost use Rattle.std.specs.List.{repeat};
ghost use Rattle.reg_names.specs.Cause.{HasCause};
ghost use Rattle.reg_names.specs.Refusals.{HasFailed};
ghost use Rattle.depot_api.specs.Changes.{Changes, Puts, Removes, StaysAt, with_lent};
ghost use Rattle.depot_api.specs.Holdings.{IfFound};
ghost use Rattle.depot_api.specs.Paths.{parts_of};
ghost use Rattle.disk_writes.specs.Writes.{line, small_path, staged_path, placed_path, IsGrown, Grows, Uploads};

use depot_api::{Depot, FILE_LIMIT, NoMemory, Path, Refused, Stage, Unplaced};
use reg_names::Bytes;
use std::alloc::Global;

/// Puts the small file of a number: its line so many times.
pub fn put<D: Depot>(alloc: Global, depot: &mut D, number: u64, times: usize) -> Result<(), Refused>
    ensures { Changes D.held D.faults depot.old depot.new
        (Puts (small_path number) (repeat times (line number)) result) (HasFailed result) }
{
    let at = small_file(alloc, number)?;
    let bytes = lines(alloc, number, times)?;
    depot.put_small(alloc, &at, bytes.as_slice())
}

/// Appends a piece so many times to the upload of a number. `None` where its path is lent.
pub fn append<D: Depot>(
    alloc: Global,
    depot: &mut D,
    number: u64,
    piece: &[u8],
    times: u64,
) -> Result<Option<()>, Refused>
    ensures grown { IfFound result (λ _.
        Grows (staged_path number) piece.now times (D.held depot.old) (D.held depot.new)) }
    ensures others { (q : List (List ℕ)) → ¬ (staged_path number ≡ q) →
        StaysAt q (D.held depot.old) (D.held depot.new) }
    ensures cause { HasCause (D.faults depot.old) (D.faults depot.new) (HasFailed result) }
{
    let at = staged_file(alloc, number)?;
    let Some(stage) = grow(alloc, depot, &at, piece, times)? else {
        return Ok(None);
    };
    depot.shelve(stage);
    Ok(Some(()))
}

/// Appends a piece so many times to the upload of a number, and places it. Gives the size of the
/// file that then stands there, and `None` where the upload's path is lent.
pub fn upload<D: Depot>(
    alloc: Global,
    depot: &mut D,
    number: u64,
    piece: &[u8],
    times: u64,
) -> Result<Option<u64>, Refused>
    ensures placed { IfFound result (λ _. Uploads (staged_path number) (placed_path number)
        piece.now times (D.held depot.old) (D.held depot.new)) }
    ensures others { (q : List (List ℕ)) → ¬ (staged_path number ≡ q) →
        ¬ (placed_path number ≡ q) → StaysAt q (D.held depot.old) (D.held depot.new) }
    ensures cause { HasCause (D.faults depot.old) (D.faults depot.new) (HasFailed result) }
{
    let at = staged_file(alloc, number)?;
    let to = placed_file(alloc, number)?;
    let Some(stage) = grow(alloc, depot, &at, piece, times)? else {
        return Ok(None);
    };
    match depot.place(alloc, stage, &to) {
        Ok(size) => Ok(Some(size)),
        Err(Unplaced::Failed) => Err(Refused::Failed),
        Err(Unplaced::NoMemory(stage)) => {
            depot.shelve(stage);
            Err(Refused::NoMemory)
        }
    }
}

/// Removes what an upload of a number has placed.
pub fn remove<D: Depot>(alloc: Global, depot: &mut D, number: u64) -> Result<(), Refused>
    ensures { Changes D.held D.faults depot.old depot.new
        (Removes (placed_path number) result) (HasFailed result) }
{
    let at = placed_file(alloc, number)?;
    depot.remove(alloc, &at)
}

/// The line of a number, so many times.
pub fn lines(alloc: Global, number: u64, times: usize) -> Result<Bytes, NoMemory>
    ensures { IfOk result (λ bytes. bytes ≡ repeat times (line number)) }
{
    let line = format!(in alloc; "{number}\n")?;
    let lines = line.as_str().repeat(alloc, times)?;
    Ok(Bytes::from_slice(alloc, lines.as_bytes())?)
}

// Lends a path and appends a piece so many times. What came of a failed append is put back.
fn grow<D: Depot>(
    alloc: Global,
    depot: &mut D,
    at: &Path,
    piece: &[u8],
    times: u64,
) -> Result<Option<D::S>, Refused>
    ensures lent { IfFound result (λ _. D.held depot.new ≡ with_lent (D.held depot.old) at.now) }
    ensures grown { IfFound result
        (λ stage. IsGrown (D.held depot.old) at.now piece.now times (D.S.held stage)) }
    ensures others { (q : List (List ℕ)) → ¬ (at.now ≡ q) →
        StaysAt q (D.held depot.old) (D.held depot.new) }
    ensures cause { HasCause (D.faults depot.old) (D.faults depot.new) (HasFailed result) }
{
    let Some(mut stage) = depot.stage(alloc, at)? else {
        return Ok(None);
    };
    match append_times(&mut stage, piece, times) {
        Ok(()) => Ok(Some(stage)),
        Err(refused) => {
            depot.shelve(stage);
            Err(refused)
        }
    }
}

// Appends a piece so many times. A stage that would be too long finds no memory.
fn append_times<S: Stage>(stage: &mut S, piece: &[u8], times: u64) -> Result<(), Refused>
    ensures path { (S.held stage.new).path ≡ (S.held stage.old).path }
    ensures tells { (S.held stage.new).tells ≡ (S.held stage.old).tells }
    ensures bytes { IsTrue (S.held stage.old).tells → IfOk result (λ _.
        (S.held stage.new).bytes ≡ (S.held stage.old).bytes ++ repeat times piece.now) }
    ensures cause { HasCause (S.faults stage.old) (S.faults stage.new) (HasFailed result) }
{
    for _ in 0..times {
        if stage.length().saturating_add(piece.len() as u64) > FILE_LIMIT {
            return Err(Refused::NoMemory);
        }
        stage.append(piece)?;
    }
    Ok(())
}

fn small_file(alloc: Global, number: u64) -> Result<Path, NoMemory>
    ensures { IfOk result (λ path. path ≡ small_path number) }
{
    path_of(alloc, format!(in alloc; "s/{}", number % 16)?.as_str())
}

fn staged_file(alloc: Global, number: u64) -> Result<Path, NoMemory>
    ensures { IfOk result (λ path. path ≡ staged_path number) }
{
    path_of(alloc, format!(in alloc; "u/{number}/data")?.as_str())
}

fn placed_file(alloc: Global, number: u64) -> Result<Path, NoMemory>
    ensures { IfOk result (λ path. path ≡ placed_path number) }
{
    path_of(alloc, format!(in alloc; "b/{number}/data")?.as_str())
}

// The path that a text is. Each of the texts above is one.
fn path_of(alloc: Global, text: &str) -> Result<Path, NoMemory>
    ensures { IfOk result (λ path. path ≡ parts_of text.now) }
{
    Path::read(alloc, text)?.ok_or(NoMemory)
}
