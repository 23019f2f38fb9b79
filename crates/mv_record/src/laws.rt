//! The laws of log files. The functions do nothing; they carry the laws.
ghost use Rattle.std.specs.Prelude.{◌≡◌, ℕ, List};
ghost use Rattle.mv_history.specs.declared.log.Entry.{Entry};
ghost use Rattle.std.specs.List.{AllByRecursion};
ghost use Rattle.mv_record.specs.Fitting.{IsFile, IsToldEntry};

/// A file is that of one list of arguments and one list of entries.
pub fn a_file_has_one_log()
    ensures { (bytes : List ℕ) (args others : List (List ℕ)) (entries more : List Entry)
        → IsFile bytes args entries → IsFile bytes others more
        → (args ≡ others) × (entries ≡ more) }
{}

/// A log has at most one file.
pub fn a_log_has_one_file()
    ensures { (bytes other : List ℕ) (args : List (List ℕ)) (entries : List Entry)
        → IsFile bytes args entries → IsFile other args entries → bytes ≡ other }
{}

/// The entries of a file can be written: each Mismatch tells another call or an end.
pub fn a_file_can_be_written_again()
    ensures { (bytes : List ℕ) (args : List (List ℕ)) (entries : List Entry)
        → IsFile bytes args entries → AllByRecursion IsToldEntry entries }
{}
