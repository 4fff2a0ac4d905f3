//! Laws over the definitions of scripts, states, turns and histories. Each is the contract of a function
//! that does nothing.

ghost use Rattle.std.specs.Prelude.{◌≡◌, ◌≢◌, ◌⊎◌, ◌<◌, ◌≤◌, ◌↔◌, ◌∷◌, ◌++◌, [], All, AllPairs, Bool, Contains, IfSome, IsSome, IsSomeAnd, List, None, Some, count_by, false, true, length, map, Option, ℕ};
ghost use Rattle.std.specs.List.Sorted.{IsStrictlyIncreasing};
ghost use Rattle.fk_time.specs.Moments.{greatest};
ghost use Rattle.fk_frame.specs.Lines.{longest_line};
ghost use Rattle.fk_frame.specs.declared.line_reader.Line.TheVariants.{Whole};
ghost use Rattle.fk_job.specs.Spellings.{AreBytes};
ghost use Rattle.fk_job.specs.declared.job.Job.{Job as AJob};
ghost use Rattle.fk_model.specs.declared.ask.Ask.{Ask as AnAsk};
ghost use Rattle.fk_model.specs.declared.ask.Ask.TheVariants.{Fail};
ghost use Rattle.fk_model.specs.declared.entry.Entry.{Entry as AnEntry};
ghost use Rattle.fk_model.specs.declared.gate.Gate.{Gate as AGate};
ghost use Rattle.fk_model.specs.declared.item.Item.{Item as AnItem};
ghost use Rattle.fk_model.specs.declared.place.Place.{Place as APlace};
ghost use Rattle.fk_model.specs.declared.row.Row.{Row as ARow};
ghost use Rattle.fk_model.specs.declared.item.Item.TheVariants.{Asks};
ghost use Rattle.fk_model.specs.Limits.{greatest_next};
ghost use Rattle.fk_model.specs.State.{KeptState, State, empty, without_workers};
ghost use Rattle.fk_model.specs.Rows.{row_at};
ghost use Rattle.fk_json.specs.PairOrder.{comes_before};
ghost use Rattle.fk_model.specs.Orders.{in_order, is_working};
ghost use Rattle.fk_model.specs.Range.{HasJsonTexts, IsInRange};
ghost use Rattle.fk_model.specs.Between.{IsBetweenTurns, IsWellKept};
ghost use Rattle.fk_model.specs.Changes.{after_moves, EndsWithTotals, Lead};
ghost use Rattle.fk_model.specs.Failing.{Reason};
ghost use Rattle.fk_model.specs.Due.{IsUpToDate};
ghost use Rattle.fk_model.specs.Bringing.{brought_up, moves_up};
ghost use Rattle.fk_model.specs.Workers.{after_turn};
ghost use Rattle.fk_model.specs.Said.{fail_effect};
ghost use Rattle.fk_model.specs.Turns.{closed, moves_of_fail, moves_of_turn, turn};
ghost use Rattle.fk_model.specs.Answers.{IsToldApart};
ghost use Rattle.fk_model.specs.History.{IsLegalFrom, IsOverLimit, faults_after, row_after, state_after};
ghost use Rattle.fk_model.specs.PushEnds.{PushStands, push_ended};
ghost use Rattle.fk_model.specs.ReservationEnds.{ReservationStands, reservation_ended, reservation_ended_at};
ghost use Rattle.fk_model.specs.Given.{added, added_by, given_by, up_for};
ghost use Rattle.fk_model.specs.Out.{asks_of, own_replies};
ghost use Rattle.fk_model.specs.Script.{AreItemsOf, IsScript};

// ---- scripts

/// Each stream has one script: what it gives is one list of items.
pub fn a_stream_has_one_script()
    ensures { (gate : AGate) (bytes : List ℕ) → (items : List AnItem) × IsScript gate bytes items
        × ((others : List AnItem) → IsScript gate bytes others → others ≡ items) }
{}

/// A turn may be made of each ask that a line gives, and so of each in a script, if what serde_json
/// decodes or writes of it is a text: no line is long enough for a job, a name or a list beyond its
/// bound.
pub fn an_ask_of_a_line_is_in_range()
    ensures line { (gate : AGate) (speaker : Option (List ℕ)) (line : List ℕ) (ask : AnAsk)
        → AreBytes line → length line ≤ longest_line
        → AreItemsOf gate speaker (Whole line) (Asks ask ∷ []) → HasJsonTexts ask → IsInRange ask }
    ensures script { (gate : AGate) (bytes : List ℕ) (items : List AnItem)
        → AreBytes bytes → IsScript gate bytes items
        → All (λ ask. HasJsonTexts ask → IsInRange ask) (asks_of items) }
{}

/// What a turn says, and what a script replies of its own, is never taken for the answer of a turn that
/// couldn't be made.
pub fn a_reply_is_told_apart()
    ensures said { (s : State) (ask : AnAsk) (moment word : ℕ)
        → IsToldApart (turn s ask moment word).reply }
    ensures own { (gate : AGate) (bytes : List ℕ) (items : List AnItem) → IsScript gate bytes items
        → All IsToldApart (own_replies items) }
{}

// ---- orders

/// Sorting pairs is a sort: no pair comes before one that stands ahead of it, and each is there as
/// often as it was.
pub fn pairs_are_sorted()
    ensures order { (pairs : List (ℕ × ℕ))
        → AllPairs (λ one other. comes_before other one ≡ false) (in_order pairs) }
    ensures same { (test : ℕ × ℕ → Bool) (pairs : List (ℕ × ℕ))
        → count_by test (in_order pairs) ≡ count_by test pairs }
{}

// ---- what falls due by time alone

/// Nothing is due any more in a kept state that is brought up to a moment.
pub fn nothing_is_due_in_what_is_up_to_date()
    ensures { (kept : KeptState) (moment word : ℕ) → IsWellKept kept → moment < greatest
        → IsUpToDate moment (brought_up kept moment word) }
{}

/// Bringing a kept state up to a moment keeps what holds of it, where its next number stays within the
/// greatest.
pub fn bringing_up_to_date_keeps_what_holds_between_turns()
    ensures { (kept : KeptState) (moment word : ℕ) → IsWellKept kept → moment < greatest
        → (brought_up kept moment word).next ≤ greatest_next
        → IsWellKept (brought_up kept moment word) }
{}

/// The moves by which a kept state is brought up to a moment make of it the one that is up to date, the
/// numbers last, and there is none exactly where it stays. Below the greatest moment, and where its next
/// number stays within the greatest, each of them fits.
pub fn the_moves_lead_to_what_is_up_to_date()
    ensures come { (kept : KeptState) (moment word : ℕ) → IsWellKept kept
        → brought_up kept moment word
        ≡ after_moves kept (closed (moves_up kept moment word) (brought_up kept moment word)) }
    ensures stays { (kept : KeptState) (moment word : ℕ) → IsWellKept kept
        → ((moves_up kept moment word ≡ []) ↔ (brought_up kept moment word ≡ kept)) }
    ensures lead { (kept : KeptState) (moment word : ℕ) → IsWellKept kept → moment < greatest
        → (brought_up kept moment word).next ≤ greatest_next
        → Lead kept (closed (moves_up kept moment word) (brought_up kept moment word))
        (brought_up kept moment word) }
{}

/// The moves of a FAIL make of the kept state the one that it leaves, and there is none exactly where that
/// stays. Below the greatest moment, and where its words can be written and the next number is within the
/// greatest, each of them fits.
pub fn the_moves_of_a_fail_lead_to_its_state()
    ensures come { (s : State) (jid : List ℕ) (reason : Reason) (moment word : ℕ) → IsBetweenTurns s
        → (fail_effect s jid reason moment word).state.kept
        ≡ after_moves s.kept (closed (moves_of_fail s.kept jid reason moment word)
        (fail_effect s jid reason moment word).state.kept) }
    ensures stays { (s : State) (jid : List ℕ) (reason : Reason) (moment word : ℕ)
        → IsBetweenTurns s
        → ((moves_of_fail s.kept jid reason moment word ≡ [])
        ↔ ((fail_effect s jid reason moment word).state.kept ≡ s.kept)) }
    ensures lead { (s : State) (jid : List ℕ) (reason : Reason) (moment word : ℕ) → IsBetweenTurns s
        → IsInRange (Fail jid reason.errtype reason.message reason.backtrace) → moment < greatest
        → s.kept.next ≤ greatest_next
        → Lead s.kept (closed (moves_of_fail s.kept jid reason moment word)
        (fail_effect s jid reason moment word).state.kept)
        (fail_effect s jid reason moment word).state.kept }
{}

// ---- a turn

/// A turn leaves nothing due at its moment.
pub fn a_turn_leaves_nothing_due()
    ensures { (s : State) (ask : AnAsk) (moment word : ℕ) → IsBetweenTurns s → moment < greatest
        → IsUpToDate moment (turn s ask moment word).state.kept }
{}

/// A turn makes of the workers what its ask says of them, once those are forgotten that were silent; what
/// falls due, and what else is asked for, leaves them as they are.
pub fn the_workers_after_a_turn()
    ensures { (s : State) (ask : AnAsk) (moment word : ℕ)
        → (turn s ask moment word).state.workers ≡ after_turn ask moment s.workers }
{}

/// A turn that isn't over its limit keeps what holds between turns.
pub fn a_turn_keeps_what_holds_between_turns()
    ensures { (s : State) (ask : AnAsk) (moment word : ℕ)
        → IsBetweenTurns s → IsInRange ask → moment < greatest
        → ¬ IsOverLimit s ask moment word
        → IsBetweenTurns (turn s ask moment word).state }
{}

/// The moves of a turn make its kept state of the one before it, the numbers last, and there is none
/// exactly where the kept state stays. Where the turn isn't over its limit, each of them fits.
pub fn the_moves_of_a_turn_lead_to_its_state()
    ensures come { (s : State) (ask : AnAsk) (moment word : ℕ) → IsBetweenTurns s
        → (turn s ask moment word).state.kept
        ≡ after_moves s.kept (moves_of_turn s ask moment word) }
    ensures stays { (s : State) (ask : AnAsk) (moment word : ℕ) → IsBetweenTurns s
        → ((moves_of_turn s ask moment word ≡ [])
        ↔ ((turn s ask moment word).state.kept ≡ s.kept)) }
    ensures ends { (s : State) (ask : AnAsk) (moment word : ℕ) → IsBetweenTurns s
        → moves_of_turn s ask moment word ≢ []
        → EndsWithTotals (moves_of_turn s ask moment word) }
    ensures lead { (s : State) (ask : AnAsk) (moment word : ℕ)
        → IsBetweenTurns s → IsInRange ask → moment < greatest
        → ¬ IsOverLimit s ask moment word
        → Lead s.kept (moves_of_turn s ask moment word) (turn s ask moment word).state.kept }
{}

// ---- a history

/// A history that goes on: the state after the whole is that after its second part, from the state
/// after its first, and so is the count of faults.
pub fn a_history_goes_on()
    ensures state { (s : State) (front back : List AnEntry)
        → state_after s (front ++ back) ≡ state_after (state_after s front) back }
    ensures faults { (n : ℕ) (front back : List AnEntry)
        → faults_after n (front ++ back) ≡ faults_after (faults_after n front) back }
    ensures legal { (s : State) (n : ℕ) (front back : List AnEntry)
        → (IsLegalFrom s n (front ++ back)
        ↔ (IsLegalFrom s n front × IsLegalFrom (state_after s front) (faults_after n front) back)) }
{}

/// A new server is as it is between turns, and so is each state of a legal history that begins in such
/// a one: the state behind each of its beginnings, the whole history among them.
pub fn a_legal_history_keeps_what_holds_between_turns()
    ensures begins { IsBetweenTurns (without_workers empty) }
    ensures keeps { (s : State) (n : ℕ) (front back : List AnEntry)
        → IsBetweenTurns s → IsLegalFrom s n (front ++ back)
        → IsBetweenTurns (state_after s front) }
{}

/// No legal history leads to a next number beyond the greatest: not that of a new server, nor one from
/// a state whose next number is within it. A turn that would is answered by Full.
pub fn a_legal_history_stays_within_its_limit()
    ensures new { (n : ℕ) (front back : List AnEntry)
        → IsLegalFrom (without_workers empty) n (front ++ back)
        → (state_after (without_workers empty) front).kept.next ≤ greatest_next }
    ensures within { (s : State) (n : ℕ) (front back : List AnEntry)
        → s.kept.next ≤ greatest_next → IsLegalFrom s n (front ++ back)
        → (state_after s front).kept.next ≤ greatest_next }
{}

// ---- what was promised

/// What was pushed stands: from the entry on in which a push was answered, each of its jobs has a row
/// under a ticket of its own, up to the first event that ends it; and behind that no row has the
/// ticket. So do the rows that a history begins with.
pub fn push_stands()
    ensures pushed { (s : State) (n : ℕ) (before later : List AnEntry) (entry : AnEntry)
        → (ticket : ℕ) (job : AJob)
        → IsBetweenTurns s → IsLegalFrom s n (before ++ entry ∷ later)
        → Contains (added_by (state_after s before) entry entry.answer) (ticket, job)
        → PushStands (push_ended (state_after s (before ++ entry ∷ [])) later ticket) job
        (row_after s (before ++ entry ∷ later) ticket) }
    ensures held { (s : State) (n : ℕ) (later : List AnEntry) (ticket : ℕ) (row : ARow)
        → IsBetweenTurns s → IsLegalFrom s n later → row_at s.kept.rows ticket ≡ Some row
        → PushStands (push_ended s later ticket) row.job (row_after s later ticket) }
{}

/// A reservation that a FETCH gave stands, with its worker and its end, up to the first event that
/// ends it; and right behind that event no worker has the row. No worker has a row but by a FETCH, and
/// a FETCH gives none that a worker has.
pub fn reservation_ends()
    ensures stands { (s : State) (n : ℕ) (before later : List AnEntry) (entry : AnEntry)
        → (ticket : ℕ) (place : APlace)
        → IsBetweenTurns s → IsLegalFrom s n (before ++ entry ∷ later)
        → given_by (state_after s before) entry entry.answer entry.ask ≡ Some (ticket, place)
        → ReservationStands (reservation_ended (state_after s (before ++ entry ∷ [])) later ticket)
        place (row_after s (before ++ entry ∷ later) ticket) }
    ensures over { (s : State) (n : ℕ) (before : List AnEntry) (entry : AnEntry) (ticket : ℕ)
        → IsBetweenTurns s → IsLegalFrom s n (before ++ entry ∷ [])
        → IsSome (reservation_ended_at (state_after s before) entry ticket entry.answer)
        → IfSome (row_after s (before ++ entry ∷ []) ticket) (λ row. is_working row.place ≡ false) }
    ensures free { (s : State) (n : ℕ) (before : List AnEntry) (entry : AnEntry)
        → (ticket : ℕ) (place : APlace)
        → IsBetweenTurns s → IsLegalFrom s n (before ++ entry ∷ [])
        → given_by (state_after s before) entry entry.answer entry.ask ≡ Some (ticket, place)
        → IsSomeAnd (row_at (up_for (state_after s before) entry).kept.rows ticket)
        (λ row. is_working row.place ≡ false) }
    ensures alone { (s : State) (n : ℕ) (before : List AnEntry) (entry : AnEntry)
        → (ticket : ℕ) (row : ARow)
        → IsBetweenTurns s → IsLegalFrom s n (before ++ entry ∷ [])
        → row_after s (before ++ entry ∷ []) ticket ≡ Some row → is_working row.place ≡ true
        → (row_after s before ticket ≡ Some row)
        ⊎ (given_by (state_after s before) entry entry.answer entry.ask
        ≡ Some (ticket, row.place)) }
{}

/// No two entries of a legal history add a row under one ticket, no entry but a push adds a row, and
/// the next number never falls.
pub fn ticket_once()
    ensures once { (s : State) (n : ℕ) (entries : List AnEntry)
        → IsBetweenTurns s → IsLegalFrom s n entries
        → IsStrictlyIncreasing (map (λ one. one.0) (added s entries)) }
    ensures new { (s : State) (n : ℕ) (entries : List AnEntry)
        → IsBetweenTurns s → IsLegalFrom s n entries
        → All (λ one. s.kept.next ≤ one.0) (added s entries) }
    ensures alone { (s : State) (n : ℕ) (before : List AnEntry) (entry : AnEntry) (ticket : ℕ)
        → IsBetweenTurns s → IsLegalFrom s n (before ++ entry ∷ [])
        → IsSome (row_after s (before ++ entry ∷ []) ticket) → row_after s before ticket ≡ None
        → Contains (map (λ one. one.0) (added_by (state_after s before) entry entry.answer))
        ticket }
    ensures rises { (s : State) (n : ℕ) (front back : List AnEntry)
        → IsLegalFrom s n (front ++ back)
        → (state_after s front).kept.next ≤ (state_after s (front ++ back)).kept.next }
{}
