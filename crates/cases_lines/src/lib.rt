//! Cases, one a line of a program's input: the kind of the case, a space, and its text.
//! `let L TEXT` gives a capital letter a text. In a text, `\L` stands for that of the letter, `\9L`
//! for nine times that, and `\r`, `\n` and `\xNN` for bytes. An empty line, one that begins with
//! `#`, and a `let` are no cases; nor is a text with a backslash before anything else.
//! The programs `cases_*` write each case with its answer, and every other line as it is.
#![tactic(auto)]

use reg_names::NoMemory;
use std::alloc::{AllocError, Global};
use std::collections::BTreeMap;
use std::io;

/// The cases that a program answers.
pub trait Cases {
    /// The answer to a case of this kind, and `None` where there is none to write. A text is bytes.
    fn answer(
        &mut self,
        alloc: Global,
        kind: &str,
        text: &[u8],
    ) -> Result<Option<String>, NoMemory>;
}

/// Writes each line of the input, a case with its answer.
pub fn answer_lines<C: Cases, R: Input + Print + AllocGlobal>(
    rt: &R,
    cases: &mut C,
) -> io::Result<()> {
    let texts = BTreeMap::new(rt.alloc());
    let mut letters = Letters { texts };
    for line in rt.lines(rt.alloc()) {
        let line = line?;
        let answer = letters.answer(rt.alloc(), cases, line.as_str());
        match answer.map_err(|_| AllocError)? {
            Some(answer) => println!(rt; "{line} => {answer}")?,
            None => println!(rt; "{line}")?,
        }
    }
    Ok(())
}

// The texts of capital letters.
#[derive(Drop)]
struct Letters {
    texts: BTreeMap<u8, Vec<u8>>,
}

impl Letters {
    // The answer to a line that is a case. A definition gives its letter the text.
    fn answer<C: Cases>(
        &mut self,
        alloc: Global,
        cases: &mut C,
        line: &str,
    ) -> Result<Option<String>, NoMemory> {
        let (kind, text) = line.split_once(' ').unwrap_or((line, ""));
        match kind {
            "" | "#" => Ok(None),
            "let" => {
                self.define(alloc, text)?;
                Ok(None)
            }
            _ => match self.expand(alloc, text)? {
                Some(text) => cases.answer(alloc, kind, text.as_slice()),
                None => Ok(None),
            },
        }
    }

    // Gives a letter its text: the letter, a space, and the text.
    fn define(&mut self, alloc: Global, definition: &str) -> Result<(), NoMemory> {
        let (letter, text) = definition.split_once(' ').unwrap_or((definition, ""));
        if let [letter @ b'A'..=b'Z'] = letter.as_bytes() {
            if let Some(text) = self.expand(alloc, text)? {
                self.texts.insert(*letter, text)?;
            }
        }
        Ok(())
    }

    // The bytes that a text stands for.
    fn expand(&self, alloc: Global, text: &str) -> Result<Option<Vec<u8>>, NoMemory> {
        let mut bytes = Vec::new(alloc);
        let mut pieces = text.split('\\');
        if let Some(plain) = pieces.next() {
            bytes.extend_from_slice(plain.as_bytes())?;
        }
        for piece in pieces {
            if !self.put(&mut bytes, piece)? {
                return Ok(None);
            }
        }
        Ok(Some(bytes))
    }

    // Puts what stands behind a backslash, and tells whether it may stand there.
    fn put(&self, bytes: &mut Vec<u8>, piece: &str) -> Result<bool, NoMemory> {
        if let Some((byte, plain)) = spelled_byte(piece) {
            bytes.push(byte)?;
            bytes.extend_from_slice(plain.as_bytes())?;
            return Ok(true);
        }
        let Some((times, letter, plain)) = repeated_letter(piece) else {
            return Ok(false);
        };
        let Some(text) = self.texts.get(&letter) else {
            return Ok(false);
        };
        for _ in 0..times {
            bytes.extend_from_slice(text)?;
        }
        bytes.extend_from_slice(plain.as_bytes())?;
        Ok(true)
    }
}

// The byte of `r`, `n` or `xNN`, and what stands behind it.
fn spelled_byte(piece: &str) -> Option<(u8, &str)> {
    if let Some(plain) = piece.strip_prefix('r') {
        return Some((b'\r', plain));
    }
    if let Some(plain) = piece.strip_prefix('n') {
        return Some((b'\n', plain));
    }
    let (digits, plain) = piece.strip_prefix('x')?.split_at_checked(2)?;
    Some((u8::from_str_radix(digits, 16).ok()?, plain))
}

// How often a letter stands there, the letter, and what stands behind it.
fn repeated_letter(piece: &str) -> Option<(usize, u8, &str)> {
    let (digits, plain) = piece.split_once(|c: char| c.is_ascii_uppercase())?;
    let letter = *piece.as_bytes().get(digits.len())?;
    let times = if digits.is_empty() { "1" } else { digits };
    Some((times.parse().ok()?, letter, plain))
}
