//! What is written of registers, repeats, bytes, lines and whole call files is read back. Each law
//! is the contract of a function that does nothing.

ghost use Rattle.std.specs.Prelude.{◌≡◌, ◌<◌, ◌≤◌, ◌^◌};
ghost use Rattle.std.specs.Prelude.{ℕ, List, Some, length, slice_get};
ghost use Rattle.std.specs.Fmt.{decimal};
ghost use Rattle.hex.specs.Hex.{encode_lower, IsBytes};
ghost use Rattle.gh_model.specs.declared.program.Line.{Line};
ghost use Rattle.gh_callfile.specs.CallFile.{Good, calls_of_lines, reading};
ghost use Rattle.gh_callfile.specs.Grammar.{bytes_of, line_of, register_of, repeat_of};
ghost use Rattle.gh_callfile.specs.Spelling.{spelled};
ghost use Rattle.gh_callfile.specs.Writing.{IsWritable, SpellsFile, file_text};
ghost use Rattle.gh_callfile.specs.Writing.{register_text, written_of};

/// Every number of 64 bits is read from its hexadecimal digits, every repeat from its decimal ones,
/// and all bytes within the limit from two digits each.
pub fn value_written_is_read()
    ensures registers { (register : ℕ) → register < 2 ^ 64 →
        register_of (register_text register) ≡ Some register }
    ensures repeats { (times : ℕ) → 1 ≤ times → times ≤ 65536 →
        repeat_of (decimal times) ≡ Some times }
    ensures bytes { (bytes : List ℕ) → 1 ≤ length bytes → length bytes ≤ 14620 → IsBytes bytes →
        bytes_of (encode_lower bytes) ≡ Some bytes }
{}

/// A line is read from what is written of it.
pub fn line_written_is_read()
    ensures { (line : Line) → IsWritable line → line_of (spelled (written_of line)) ≡ Some line }
{}

/// The lines of a call file are read from what is written of them, where there is room for their
/// calls.
pub fn file_written_is_read()
    ensures { (lines : List Line) (room : ℕ) →
        ((i : ℕ) (line : Line) → slice_get lines i ≡ Some line → IsWritable line) →
        calls_of_lines lines ≤ room → reading (file_text lines) room ≡ Good lines }
{}

/// A text that reads as a call file is made of texts that spell its lines, each with its line feed.
pub fn file_read_is_spelled()
    ensures { (text : List ℕ) (room : ℕ) (lines : List Line) →
        reading text room ≡ Good lines → SpellsFile text lines }
{}
