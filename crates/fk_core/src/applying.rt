// The state after moves.
ghost use Rattle.std.specs.Prelude.{◌≡◌, ◌∷◌, ◌++◌, ◌+◌, ◌^◌, ◌<◌, ◌≤◌, List, [], length, if◌then◌else◌};
ghost use Rattle.std.specs.Option.{ForSome};
ghost use Rattle.fk_model.specs.declared.move_.Move.{Move};
ghost use Rattle.fk_model.specs.declared.move_.Move.TheVariants.{Add, Drop, DropAll, Put, Totals};
ghost use Rattle.fk_model.specs.Changes.{after_move, after_moves, Fits, FitInTurn};
ghost use Rattle.fk_model.specs.Rows.{row_at};
ghost use Rattle.fk_model.specs.Orders.{is_working};
ghost use Rattle.fk_core.specs.Index.{Entered, HasLeft, MayEnter, MayLeave};
ghost use Rattle.fk_core.specs.Reserved.{Reserved};
ghost use Rattle.fk_core.specs.Makes.{Makes};

use crate::Tables;
use crate::index::Index;
use fk_job::Failure;
use fk_model::{Move, Moves, Place, Row};
use fk_rows::Rows;

impl Tables {
    /// Makes the moves, one behind the other, and empties their list. It takes no memory and can't
    /// fail.
    pub fn apply(&mut self, moves: &mut Moves)
        requires fit { FitInTurn self.old.kept moves.old.items }
        requires room { Reserved self.old moves.old.items }
        ensures kept { self.new.kept ≡ after_moves self.old.kept moves.old.items }
        // Where there was room for them and for others, there is room for the others.
        ensures room { (others : List Move) → Reserved self.old (moves.old.items ++ others)
            → Reserved self.new others }
        ensures empty { moves.new.items ≡ [] }
        ensures spare { length moves.old.items + moves.old.spare ≤ moves.new.spare }
    {
        'making: for at in 0..moves.len() {
            if let Some(step) = moves.replace(at, Move::DropAll) {
                self.make(step);
            }
        }
        moves.clear();
    }

    /// Makes one move.
    fn make(&mut self, step: Move)
        requires fits { Fits self.old.kept step }
        requires room { Reserved self.old (step ∷ []) }
        ensures { Makes step self.old self.new }
    {
        match step {
            Move::Add { ticket, row } => self.add(ticket, row),
            Move::Put {
                ticket,
                enqueued,
                failure,
                place,
            } => self.put(ticket, enqueued, failure, place),
            Move::Drop { ticket } => self.drop_row(ticket),
            Move::DropAll => self.drop_all(),
            Move::Totals {
                next,
                processed,
                failures,
            } => self.tell(next, processed, failures),
        }
    }

    /// Adds a row.
    fn add(&mut self, ticket: u64, row: Row)
        requires fits { Fits self.old.kept (Add ticket row) }
        requires room { Reserved self.old (Add ticket row ∷ []) }
        ensures { Makes (Add ticket row) self.old self.new }
    {
        // There are fewer rows than 2^63, and so fewer that workers have.
        let _ = self.rows.count();
        self.index.enter(ticket, &row);
        self.rows.put(ticket, row);
    }

    /// Puts a row to another place.
    fn put(&mut self, ticket: u64, enqueued: Option<u64>, failure: Option<Failure>, place: Place)
        requires fits { Fits self.old.kept (Put ticket enqueued failure place) }
        requires room { Reserved self.old (Put ticket enqueued failure place ∷ []) }
        ensures { Makes (Put ticket enqueued failure place) self.old self.new }
    {
        let _ = self.rows.count();
        leave_at(&self.rows, &mut self.index, ticket);
        self.rows.change(ticket, enqueued, failure, place);
        enter_at(&self.rows, &mut self.index, ticket);
    }

    /// Forgets a row.
    fn drop_row(&mut self, ticket: u64)
        requires { Fits self.old.kept (Drop ticket) }
        ensures { Makes (Drop ticket) self.old self.new }
    {
        let taken = self.rows.take(ticket);
        leave_taken(&mut self.index, ticket, taken);
    }

    /// Forgets all rows.
    fn drop_all(&mut self)
        ensures { Makes DropAll self.old self.new }
    {
        self.rows.clear();
        self.index.clear();
    }

    /// Tells the numbers. The next one is above all tickets and ranks.
    fn tell(&mut self, next: u64, processed: u64, failures: u64)
        requires { Fits self.old.kept (Totals next processed failures) }
        ensures { Makes (Totals next processed failures) self.old self.new }
    {
        self.index.renumber(next);
        self.next = next;
        self.processed = processed;
        self.failures = failures;
    }
}

/// The row of a ticket leaves the place where it is.
fn leave_at(rows: &Rows, index: &mut Index, ticket: u64)
    requires may { ForSome (row_at rows.now.items ticket) (λ row. MayLeave index.old ticket row) }
    requires some { ForSome (row_at rows.now.items ticket)
        (λ row. (if is_working row.place then 1 else 0) ≤ index.old.working) }
    ensures { ForSome (row_at rows.now.items ticket) (λ row. HasLeft ticket row index.old index.new) }
{
    if let Some(row) = rows.get(ticket) {
        index.leave(ticket, row);
    }
}

/// A row that was taken out, if there was one, leaves the place where it is.
fn leave_taken(index: &mut Index, ticket: u64, taken: Option<Row>)
    requires may { ForSome taken (λ row. MayLeave index.old ticket row) }
    requires some { ForSome taken
        (λ row. (if is_working row.place then 1 else 0) ≤ index.old.working) }
    ensures { ForSome taken (λ row. HasLeft ticket row index.old index.new) }
{
    if let Some(row) = taken {
        index.leave(ticket, &row);
    }
}

/// The row of a ticket enters where its place says.
fn enter_at(rows: &Rows, index: &mut Index, ticket: u64)
    requires may { ForSome (row_at rows.now.items ticket) (λ row. MayEnter index.old ticket row) }
    requires fits { index.old.working < 2 ^ 63 }
    ensures { ForSome (row_at rows.now.items ticket) (λ row. Entered ticket row index.old index.new) }
{
    if let Some(row) = rows.get(ticket) {
        index.enter(ticket, row);
    }
}
