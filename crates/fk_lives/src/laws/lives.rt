//! Laws over histories on disk and over lives.

ghost use Rattle.std.specs.Prelude.{◌≡◌, ◌⊎◌, ℕ, ◌≤◌, List, [], ◌∷◌, ◌++◌, map, true, false, Contains, None, Some, IfSome, IsSome, IsSomeAnd, Option};
ghost use Rattle.std.specs.List.Sorted.{IsStrictlyIncreasing};
ghost use Rattle.std.specs.Option.{option_or};
ghost use Rattle.fk_job.specs.declared.job.Job.{Job as AJob};
ghost use Rattle.fk_model.specs.declared.entry.Entry.{Entry as AnEntry};
ghost use Rattle.fk_model.specs.declared.move_.Move.{Move as AMove};
ghost use Rattle.fk_model.specs.declared.place.Place.{Place as APlace};
ghost use Rattle.fk_model.specs.declared.row.Row.{Row as ARow};
ghost use Rattle.fk_model.specs.Between.{IsBetweenTurns, IsWellKept};
ghost use Rattle.fk_model.specs.Changes.{after_moves};
ghost use Rattle.fk_model.specs.Given.{added_by, given_by, up_for};
ghost use Rattle.fk_model.specs.History.{row_after, state_after};
ghost use Rattle.fk_model.specs.Limits.{greatest_next};
ghost use Rattle.fk_model.specs.Orders.{is_working};
ghost use Rattle.fk_model.specs.PushEnds.{PushStands};
ghost use Rattle.fk_model.specs.ReservationEnds.{ReservationStands, reservation_ended, reservation_ended_at};
ghost use Rattle.fk_model.specs.Rows.{row_at};
ghost use Rattle.fk_model.specs.State.{KeptState, empty};
ghost use Rattle.fk_lives.specs.Lives.{added_in_runs, kept_after, push_ended_in_rest, push_ended_in_runs, GoesOnFrom, IsLife, Run};
ghost use Rattle.fk_lives.specs.OnDisk.{Server, after_on_disk, moves_of_entry, IsLegalOnDisk, IsStepOnDisk};
ghost use Rattle.fk_lives.specs.Standing.{Stands};
ghost use Rattle.fk_lives.specs.Doubt.{IsDoubtAfter, IsDoubtOf, StandsWithDoubt};
ghost use Rattle.fk_lives.specs.Crashes.{with_run, IsLifeWith, MayReach};

// ---- histories on disk

/// A history on disk has the states that it would have without one, and what holds between turns holds behind
/// each of its fronts, where it holds at its start.
pub fn a_history_on_disk_is_a_history()
    ensures states { (server : Server) (entries : List AnEntry)
        → (after_on_disk server entries).state ≡ state_after server.state entries }
    ensures keeps { (server : Server) (faults : ℕ) (front back : List AnEntry)
        → IsBetweenTurns server.state → IsLegalOnDisk server faults (front ++ back)
        → IsBetweenTurns (after_on_disk server front).state }
    ensures within { (server : Server) (faults : ℕ) (front back : List AnEntry)
        → server.state.kept.next ≤ greatest_next → IsLegalOnDisk server faults (front ++ back)
        → (after_on_disk server front).state.kept.next ≤ greatest_next }
{}

/// In a history on disk a reservation that a FETCH gave stands, with its worker and its end, up to the first event
/// that ends it; and right behind that event no worker has the row. No worker has a row but by a FETCH, and a FETCH
/// gives none that a worker has.
pub fn reservation_ends()
    ensures stands { (server : Server) (faults : ℕ) (before later : List AnEntry) (entry : AnEntry)
        → (ticket : ℕ) (place : APlace)
        → IsBetweenTurns server.state → IsLegalOnDisk server faults (before ++ entry ∷ later)
        → given_by (state_after server.state before) entry entry.answer entry.ask ≡ Some (ticket, place)
        → ReservationStands (reservation_ended (state_after server.state (before ++ entry ∷ [])) later ticket)
        place (row_after server.state (before ++ entry ∷ later) ticket) }
    ensures over { (server : Server) (faults : ℕ) (before : List AnEntry) (entry : AnEntry) (ticket : ℕ)
        → IsBetweenTurns server.state → IsLegalOnDisk server faults (before ++ entry ∷ [])
        → IsSome (reservation_ended_at (state_after server.state before) entry ticket entry.answer)
        → IfSome (row_after server.state (before ++ entry ∷ []) ticket) (λ row. is_working row.place ≡ false) }
    ensures free { (server : Server) (faults : ℕ) (before : List AnEntry) (entry : AnEntry)
        → (ticket : ℕ) (place : APlace)
        → IsBetweenTurns server.state → IsLegalOnDisk server faults (before ++ entry ∷ [])
        → given_by (state_after server.state before) entry entry.answer entry.ask ≡ Some (ticket, place)
        → IsSomeAnd (row_at (up_for (state_after server.state before) entry).kept.rows ticket)
        (λ row. is_working row.place ≡ false) }
    ensures alone { (server : Server) (faults : ℕ) (before : List AnEntry) (entry : AnEntry)
        → (ticket : ℕ) (row : ARow)
        → IsBetweenTurns server.state → IsLegalOnDisk server faults (before ++ entry ∷ [])
        → row_after server.state (before ++ entry ∷ []) ticket ≡ Some row → is_working row.place ≡ true
        → (row_after server.state before ticket ≡ Some row)
        ⊎ (given_by (state_after server.state before) entry entry.answer entry.ask
        ≡ Some (ticket, row.place)) }
{}

// ---- lives

/// What a crash leaves is what a life keeps: the one so far, to whose last run the crash may have added one command.
/// So the next run goes on from it. Between turns the files stand for what is kept, or for it with what is
/// in doubt; within a turn that is made, or in which a disk fails, maybe for it with the moves of the turn.
pub fn a_crash_leaves_a_life()
    ensures doubt { (runs : List Run) (server : Server) (entries : List AnEntry) (doubt : Option (List AMove))
        → (a b : List ℕ)
        → IsLife (with_run runs server entries None) → IsDoubtOf server entries doubt
        → StandsWithDoubt (after_on_disk server entries).state.kept doubt a b
        → IsLifeWith runs server entries a b }
    ensures turn { (runs : List Run) (server after : Server) (entries : List AnEntry) (entry : AnEntry)
        → (a b : List ℕ)
        → IsLife (with_run runs server entries None)
        → IsStepOnDisk (after_on_disk server entries) entry after → MayReach entry.answer
        → Stands a b (after_moves (after_on_disk server entries).state.kept
        (moves_of_entry (after_on_disk server entries) entry))
        → IsLifeWith runs server entries a b }
{}

/// What is in doubt behind a turn is of an entry of the history that was refused for a disk fault.
pub fn what_is_in_doubt_is_of_a_refused_entry()
    ensures { (server : Server) (faults : ℕ) (entries : List AnEntry) (entry : AnEntry)
        → (before after : Option (List AMove))
        → IsBetweenTurns server.state → IsLegalOnDisk server faults (entries ++ entry ∷ [])
        → IsDoubtOf server entries before
        → IsDoubtAfter entry.answer (moves_of_entry (after_on_disk server entries) entry) before after
        → IsDoubtOf server (entries ++ entry ∷ []) after }
{}

/// What was pushed stands through a life: from the entry on in which a push was answered, each of its jobs has a row
/// under a ticket of its own, through each later run and crash, up to the first event that ends it; and behind that
/// no row has the ticket. So do the rows with which runs begin.
pub fn push_stands()
    ensures pushed { (earlier later : List Run) (run : Run) (before after : List AnEntry) (entry : AnEntry)
        → (ticket : ℕ) (job : AJob)
        → IsLife (earlier ++ run ∷ later) → run.entries ≡ before ++ entry ∷ after
        → Contains (added_by (state_after run.start.state before) entry entry.answer) (ticket, job)
        → PushStands (option_or
        (push_ended_in_rest (state_after run.start.state (before ++ entry ∷ [])) after run.added ticket)
        (push_ended_in_runs later ticket)) job
        (row_at (kept_after empty (earlier ++ run ∷ later)).rows ticket) }
    ensures held { (kept : KeptState) (runs : List Run) (ticket : ℕ) (row : ARow)
        → IsWellKept kept → kept.next ≤ greatest_next → GoesOnFrom kept runs
        → row_at kept.rows ticket ≡ Some row
        → PushStands (push_ended_in_runs runs ticket) row.job (row_at (kept_after kept runs).rows ticket) }
{}

/// In a life no two answered pushes, and no command that a crash added, add a row under one ticket, no row is there
/// but those that they add, and the next number never falls: at the end it is no lower than anywhere in a run.
pub fn ticket_once()
    ensures once { (runs : List Run) → IsLife runs
        → IsStrictlyIncreasing (map (λ one. one.0) (added_in_runs runs)) }
    ensures alone { (runs : List Run) (ticket : ℕ) → IsLife runs
        → IsSome (row_at (kept_after empty runs).rows ticket)
        → Contains (map (λ one. one.0) (added_in_runs runs)) ticket }
    ensures rises { (earlier later : List Run) (run : Run) (front back : List AnEntry)
        → IsLife (earlier ++ run ∷ later) → run.entries ≡ front ++ back
        → (state_after run.start.state front).kept.next ≤ (kept_after empty (earlier ++ run ∷ later)).next }
{}
