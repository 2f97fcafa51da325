//! What the definition of a task implies.

ghost use Rattle.std.specs.Prelude.{◌≡◌, List};
ghost use Rattle.clap.specs.Words.{App, Text};
ghost use Rattle.opgp_tool.specs.Saying.{SaysRequest, SaysTask};
ghost use Rattle.opgp_tool.specs.Words.{Asked, AskedWork};

/// A command line names one task at most, with progress or without, and one directory of a spool.
pub fn words_name_one_task()
    ensures task { (program : App) (words : List Text) (a b : AskedWork)
        → SaysTask program words a → SaysTask program words b → a ≡ b }
    ensures request { (program : App) (words : List Text) (a b : Asked)
        → SaysRequest program words a → SaysRequest program words b → a ≡ b }
{}
