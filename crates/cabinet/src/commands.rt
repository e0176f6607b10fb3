// The commands and their words.
ghost use Rattle.cabinet.specs.Words.{Names};

#[derive(Clone, Copy, Debug, PartialEq, Eq)]
pub enum Command {
    PrintFormula,
    CheckAssignment,
    CheckPlan,
    CheckRefutation,
    CheckFewest,
    UpgradeBook,
    PrintGraph,
    ListCarriers,
}

// The command that a word names, if it names one.
pub fn named(word: &[u8]) -> Option<Command>
    ensures { Names word.now result }
{
    match word {
        b"print_formula" => Some(Command::PrintFormula),
        b"check_assignment" => Some(Command::CheckAssignment),
        b"check_plan" => Some(Command::CheckPlan),
        b"check_refutation" => Some(Command::CheckRefutation),
        b"check_fewest" => Some(Command::CheckFewest),
        b"upgrade_book" => Some(Command::UpgradeBook),
        b"print_graph" => Some(Command::PrintGraph),
        b"list_carriers" => Some(Command::ListCarriers),
        _ => None,
    }
}
