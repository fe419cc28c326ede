// The report as a word of the command line.
#![tactic(auto)]

ghost use Rattle.std.specs.Prelude.{◌≡◌};
ghost use Rattle.say_words.specs.Commands.{report_command};

use printing::{MOST_PLACES, NODE_LIMIT};
use say_words::Command;

// A search with the report's limit and its list.
pub fn report_command() -> Command
    ensures { result ≡ report_command }
{
    Command::Search(NODE_LIMIT, MOST_PLACES)
}
