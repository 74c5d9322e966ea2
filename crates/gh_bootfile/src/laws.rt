//! The laws that join the grammar of boot files and the reader. Each is the contract of a function
//! that does nothing.

ghost use Rattle.std.specs.Prelude.{◌≡◌, ℕ, List, Some, Ok, Err, true};
ghost use Rattle.std.specs.List.{list_all};
ghost use Rattle.gh_bootfile.specs.BadLine.{IsFirstBad};
ghost use Rattle.gh_bootfile.specs.BootFile.{boot_of};
ghost use Rattle.gh_bootfile.specs.Grammar.{boot_text, fields_hold, line_text};
ghost use Rattle.gh_bootfile.specs.Reading.{line_of};
ghost use Rattle.gh_model.specs.Boot.{boot_fits};
ghost use Rattle.gh_model.specs.declared.boot_line.BootLine.{BootLine};

/// What is read as a line is the text of that line, each byte of it.
pub fn read_line_is_its_text()
    ensures spelled { (bytes : List ℕ) (line : BootLine) →
        line_of bytes ≡ Some line → bytes ≡ line_text line }
    ensures fields { (bytes : List ℕ) (line : BootLine) →
        line_of bytes ≡ Some line → fields_hold line ≡ true }
{}

/// The text of a line is read as that line.
pub fn text_of_line_is_read()
    ensures { (line : BootLine) → fields_hold line ≡ true → line_of (line_text line) ≡ Some line }
{}

/// What is read as a boot file is the text of its lines, each byte of it, and they meet the
/// conditions of boot files.
pub fn read_file_is_its_text()
    ensures spelled { (text : List ℕ) (lines : List BootLine) →
        boot_of text ≡ Ok lines → text ≡ boot_text lines }
    ensures fields { (text : List ℕ) (lines : List BootLine) →
        boot_of text ≡ Ok lines → list_all fields_hold lines ≡ true }
    ensures fits { (text : List ℕ) (lines : List BootLine) →
        boot_of text ≡ Ok lines → boot_fits lines ≡ true }
{}

/// The text of a boot file is read as its lines.
pub fn text_of_file_is_read()
    ensures { (lines : List BootLine) → boot_fits lines ≡ true → list_all fields_hold lines ≡ true
        → boot_of (boot_text lines) ≡ Ok lines }
{}

/// The reader tells a bad line exactly where it is the first one, and there is only one first.
pub fn bad_line_is_the_first()
    ensures told { (text : List ℕ) (number : ℕ) →
        boot_of text ≡ Err number → IsFirstBad text number }
    ensures first { (text : List ℕ) (number : ℕ) →
        IsFirstBad text number → boot_of text ≡ Err number }
    ensures one { (text : List ℕ) (number other : ℕ) →
        IsFirstBad text number → IsFirstBad text other → number ≡ other }
{}
