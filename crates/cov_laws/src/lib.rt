//! What holds of merged files as a whole: equal bytes tell equal sums.
#![tactic(auto)]

ghost use Rattle.std.specs.Prelude.{◌≡◌, ◌↔◌, List, IsTrue};
ghost use Rattle.cov_model.specs.declared.snapshot.Snapshot.{Snapshot};
ghost use Rattle.cov_model.specs.File.{file};
ghost use Rattle.cov_book.specs.Stands.{StandsFor};
ghost use Rattle.cov_laws.specs.Laws.{AcceptedAreRead, AreRead, OneFile, OneFileOfTexts, ReadBack, ReadingsAreRead};

use cov_book::Book;

/// Two lists of snapshots that were read, and that fit, have one file exactly where they have the same sums: the same urls,
/// functions, flags, root sums and sums at each offset. So equal bytes tell equal sums, and equal sums are written as equal bytes.
/// A snapshot is read of a JSON value, as that of a text or of a reply.
pub fn one_file()
    ensures sums { OneFile }
    ensures read { ReadingsAreRead }
{}

/// What two lists of texts come to has one file exactly where it has the same sums, whatever the texts are: what is accepted of
/// them fits, and was read.
pub fn one_file_of_texts()
    ensures sums { OneFileOfTexts }
    ensures read { AcceptedAreRead }
{}

/// The text of scripts is read as these scripts, or not at all: no text is written that comes back as something else.
pub fn read_back()
    ensures { ReadBack }
{}

/// Whether two books agree, and so come to one merged file, byte for byte. It takes no memory and writes neither file. What the
/// books stand for was read, of texts or of replies.
pub fn have_one_file(one: &Book, other: &Book) -> bool
    ensures sums { IsTrue result ↔ (one.now ≡ other.now) }
    ensures files { (held more : List Snapshot) → StandsFor one.now held → StandsFor other.now more → AreRead held → AreRead more
        → IsTrue result ↔ (file held ≡ file more) }
{
    one.agrees(other)
}
