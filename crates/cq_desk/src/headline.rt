//! What the floor machine promises to who looks.

ghost use Rattle.std.specs.Prelude.{◌≡◌, ℕ, ◌≤◌, ◌++◌, List, length, fold, take, Ok};
ghost use Rattle.cq_desk.specs.Machine.{opening_machine, machine_run, answer_to, seen_by, entered, entry_count, published_count, published_content, working_content};
ghost use Rattle.cq_desk.specs.declared.event.Event.{Event};
ghost use Rattle.cq_desk.specs.declared.event.Event.TheVariants.{Look};
ghost use Rattle.cq_desk.specs.declared.event.Answer.TheVariants.{Looked};

use crate::live::Live;

/// What a session has seen or heard of never grows less, and a look shows no less, whatever events
/// came since the machine began. What is published is a front of the journal.
pub fn looks_never_fall<L: Live>()
    ensures seen { (opening : L.Content) (limit sessions session : ℕ) (events more : List (Event L.Edit)) → seen_by (machine_run L.after L.why (opening_machine opening limit sessions) events) session ≤ seen_by (machine_run L.after L.why (opening_machine opening limit sessions) (events ++ more)) session }
    ensures looked { (opening : L.Content) (limit sessions session count : ℕ) (events : List (Event L.Edit)) → answer_to L.after L.why (machine_run L.after L.why (opening_machine opening limit sessions) events) (Look session) ≡ Ok (Looked count) → seen_by (machine_run L.after L.why (opening_machine opening limit sessions) events) session ≤ count }
    ensures front { (opening : L.Content) (limit sessions : ℕ) (events : List (Event L.Edit)) → (machine_run L.after L.why (opening_machine opening limit sessions) events).published ≤ length (machine_run L.after L.why (opening_machine opening limit sessions) events).journal }
{}

/// Checkpoints lose nothing. After any events, including checkpoints, the working content results from all edits that were ever entered over the
/// first opening content, the published content from the first of them, as many as are published, and numbers count them all.
pub fn checkpoints_lose_nothing<L: Live>()
    ensures working { (opening : L.Content) (limit sessions : ℕ) (events : List (Event L.Edit)) → working_content L.after (machine_run L.after L.why (opening_machine opening limit sessions) events) ≡ fold L.after opening (entered L.after L.why (opening_machine opening limit sessions) events) }
    ensures shown { (opening : L.Content) (limit sessions : ℕ) (events : List (Event L.Edit)) → published_content L.after (machine_run L.after L.why (opening_machine opening limit sessions) events) ≡ fold L.after opening (take (published_count (machine_run L.after L.why (opening_machine opening limit sessions) events)) (entered L.after L.why (opening_machine opening limit sessions) events)) }
    ensures count { (opening : L.Content) (limit sessions : ℕ) (events : List (Event L.Edit)) → entry_count (machine_run L.after L.why (opening_machine opening limit sessions) events) ≡ length (entered L.after L.why (opening_machine opening limit sessions) events) }
{}
