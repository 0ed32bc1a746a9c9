//! What a dump leaves if it is served as a script.

ghost use Rattle.std.specs.Prelude.{◌≡◌, ℕ, map};
ghost use Rattle.std.specs.List.{All};
ghost use Rattle.cq_text.specs.declared.form.Form.{Form};
ghost use Rattle.cq_text.specs.Grammar.{FitsCommand};
ghost use Rattle.cq_text.specs.Sound.{IsSoundCommand};
ghost use Rattle.cq_board.specs.Pool.{PoolRecord, IsPool};
ghost use Rattle.cq_render.specs.Dump.{dump, dump_commands, dump_journal};
ghost use Rattle.cq_render.specs.Report.{report};
ghost use Rattle.cq_report.specs.Lines.{lines_of};
ghost use Rattle.cq_report.specs.Reading.{Reads};
ghost use Rattle.cq_report.specs.Refusals.{no_refusal};
ghost use Rattle.cq_report.specs.Output.{AreReadings, left_after, pool_left};

use cq_board::pools_are_their_content;
use cq_text::commands_read_back;

/// Dumps make their boards again: served as a script, each line of a dump is accepted, and the lines leave the same relations, rows
/// and queries in the same order. So a `show` prints the same, except for the number of entries.
pub fn dumps_make_boards()
    // The lines of a dump are read as its commands.
    ensures read { (form : Form) (journal : ℕ) (pool : PoolRecord) → All IsSoundCommand (dump_commands form journal pool) → All (FitsCommand form) (dump_commands form journal pool) → AreReadings (lines_of (dump form journal pool)) (map Reads (dump_commands form journal pool)) }
    // They leave the pool, under the limits that the dump names, and none is refused.
    ensures made { (form : Form) (journal : ℕ) (pool : PoolRecord) → IsPool pool → pool_left (map Reads (dump_commands form journal pool)) ≡ record pool { limits = record { pool = pool.limits.pool; journal = dump_journal journal pool } } }
    ensures accepted { (form : Form) (journal : ℕ) (pool : PoolRecord) → IsPool pool → (left_after (map Reads (dump_commands form journal pool))).tally ≡ no_refusal }
    // So the report is the same.
    ensures shown { (form : Form) (journal : ℕ) (pool : PoolRecord) → IsPool pool → report (pool_left (map Reads (dump_commands form journal pool))) ≡ report pool }
{
    commands_read_back();
    pools_are_their_content();
}
