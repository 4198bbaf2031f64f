//! The command `report FOLDER --as FORM`.
ghost use Rattle.std.specs.Prelude.{◌≡◌, ◌≤◌, ◌⊎◌, IfOk, IfErr, OnOk};
ghost use Rattle.cov_io.specs.Causes.{Rose};
ghost use Rattle.cov_io.specs.Told.{WhereTold, FolderIsThere};
ghost use Rattle.istanbul_json.specs.Gives.{ArePathsInOrder};
ghost use Rattle.cov_commands.specs.Counting.{CountsSkips};
ghost use Rattle.cov_commands.specs.Due.{report_due, text_in, FolderIsMissing};
ghost use Rattle.cov_commands.specs.Ends.{IsFinished};
ghost use Rattle.cov_commands.specs.Owed.{Gives, text_of};
ghost use Rattle.cov_commands.specs.Stores.{store_at};
ghost use Rattle.cov_commands.specs.Tool.{report_reader, reading_duty};

use crate::Ended;
use crate::due::{Due, Output};
use crate::ended::refused_or_done;
use crate::reporting::{Reported, report_folder};
use cov_io::Store;
use cov_model::Items;
use cov_table::table_text;
use cov_words::Form;
use coverage_text::CoverageFiles;
use istanbul_json::FileCoverage;
use lcov_text::lcov_of;
use std::alloc::{AllocError, Global};

/// What `report FOLDER --as FORM` owes: the coverage of the files behind the folder's texts, as text of this form, and the
/// lines of the refused texts and of what is left out.
pub fn report<S: Store>(
    alloc: Global,
    store: &mut S,
    folder: &str,
    form: Form,
) -> Result<Due, Ended>
    ensures { Gives (reading_duty (report_reader form folder.now))
        (store_at store.old (S.files store.old) (S.folders store.old) (S.faults store.old))
        (store_at store.new (S.files store.new) (S.folders store.new) (S.faults store.new)) result }
{
    let found = match report_folder(alloc, store, folder) {
        Ok(found) => found,
        Err(ended) => return Err(ended),
    };
    let Reported {
        report,
        lines,
        refused,
    } = found;
    let Ok(out) = output_as(alloc, form, report.files) else {
        return Err(Ended::NoMemory);
    };
    Ok(Due {
        out,
        err: lines,
        ended: refused_or_done(refused),
    })
}

/// What files owe the output in a form.
fn output_as(alloc: Global, form: Form, files: Items<FileCoverage>) -> Result<Output, AllocError>
    requires { ArePathsInOrder files }
    ensures { IfOk result (λ output. text_of output ≡ text_in form files) }
{
    match form {
        Form::Json => Ok(Output::Coverage(CoverageFiles::new(files))),
        Form::Lcov => Ok(Output::Bytes(Items::from_vec(lcov_of(alloc, files.as_slice())?))),
        Form::Text => Ok(Output::Bytes(Items::from_vec(table_text(alloc, files.as_slice())?))),
    }
}
