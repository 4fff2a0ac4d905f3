ghost use Rattle.std.specs.Prelude.{◌≡◌, ℕ, ◌+◌, List, [], ◌∷◌, Option};
ghost use Rattle.fk_io.specs.Telling.{Gave};
ghost use Rattle.fk_model.specs.declared.move_.Move.{Move};
ghost use Rattle.fk_model.specs.declared.told.Told.{Told as ATold};
ghost use Rattle.fk_model.specs.Between.{IsBetweenTurns};
ghost use Rattle.fk_model.specs.Range.{IsInRange};
ghost use Rattle.fk_model.specs.declared.answer.Answer.TheVariants.{DiskFault};
ghost use Rattle.fk_lives.specs.Causes.{HasDiskCause};
ghost use Rattle.fk_lives.specs.Doubt.{IsDoubtAfter, IsSound};
ghost use Rattle.fk_lives.specs.OnDisk.{IsStepOnDisk, Server, moves_of_entry};
ghost use Rattle.fk_lives.specs.Ways.{disks};
ghost use Rattle.fk_desk.specs.Keeping.{CallsNoDisk, StandStill, TurnGoesOn, entry_of};

use fk_model::{Answer, Ask, Told};
use std::alloc::Global;

/// What keeps the state of a server over two disks, and makes its turns, one behind the other.
pub trait Kept {
    /// The state, and the two numbers of the journal.
    ghost server: { Self → Server };

    /// The moves in doubt: those of a command that was refused, and may be on the disk all the same.
    ghost doubt: { Self → Option (List Move) };

    /// The moments to come, where the clock tells them. The last one is told for ever.
    ghost moments: { Self → Option (List ℕ) };

    /// The words to come, where the dice tell them. The last one is told for ever.
    ghost words: { Self → Option (List ℕ) };

    /// How often a call of each disk has failed. It never falls.
    ghost faults_a: { Self → ℕ };

    ghost faults_b: { Self → ℕ };

    /// What the last turn told of itself.
    ghost last: { Self → ATold };

    /// The own moment of each disk, and what a crash may leave of it at each of its moments.
    ghost moment_a: { Self → ℕ };

    ghost images_a: { Self → ℕ → List ℕ → Type 0 };

    ghost moment_b: { Self → ℕ };

    ghost images_b: { Self → ℕ → List ℕ → Type 0 };

    /// Makes one turn for a seat. It takes one moment and one word, whatever it answers. After `Said` the turn's
    /// change is on the disk. After any other answer the state is as before.
    fn turn(&mut self, alloc: Global, seat: u64, ask: Ask) -> Answer
        requires range { IsInRange ask }
        ensures step { IsStepOnDisk (server self.old)
            (entry_of seat ask (last self.new) result) (server self.new) }
        ensures moment { Gave (moments self.old) ((last self.new).moment ∷ []) (moments self.new) }
        ensures word { Gave (words self.old) ((last self.new).word ∷ []) (words self.new) }
        ensures before { (last self.new).before ≡ faults_a self.old + faults_b self.old }
        ensures after { (last self.new).after ≡ faults_a self.new + faults_b self.new }
        ensures cause { HasDiskCause (result ≡ DiskFault)
            (faults_a self.old) (faults_a self.new) (faults_b self.old) (faults_b self.new) }
        ensures doubt { IsDoubtAfter result
            (moves_of_entry (server self.old) (entry_of seat ask (last self.new) result))
            (doubt self.old) (doubt self.new) }
        ensures crash { TurnGoesOn (server self.old).state.kept (doubt self.old)
            (moves_of_entry (server self.old) (entry_of seat ask (last self.new) result))
            (disks (moment_a self.old) (images_a self.old) (moment_b self.old) (images_b self.old))
            (disks (moment_a self.new) (images_a self.new) (moment_b self.new) (images_b self.new)) }
        ensures still { CallsNoDisk result
            (moves_of_entry (server self.old) (entry_of seat ask (last self.new) result)) →
            StandStill
            (disks (moment_a self.old) (images_a self.old) (moment_b self.old) (images_b self.old))
            (disks (moment_a self.new) (images_a self.new) (moment_b self.new) (images_b self.new)) }
        ensures quiet { CallsNoDisk result
            (moves_of_entry (server self.old) (entry_of seat ask (last self.new) result)) →
            (faults_a self.new ≡ faults_a self.old) × (faults_b self.new ≡ faults_b self.old) }
        ensures sound { IsSound (server self.new).state.kept (doubt self.new)
            (images_a self.new (moment_a self.new)) (images_b self.new (moment_b self.new)) }
        ensures between { IsBetweenTurns (server self.new).state };

    /// What the last turn told of itself: before the first one each number is 0.
    fn told(&self) -> Told
        ensures { result ≡ last self.now };

    /// What holds of it between turns: it calls nothing. What a crash now may leave is sound.
    fn stands(&self)
        ensures sound { IsSound (server self.now).state.kept (doubt self.now)
            (images_a self.now (moment_a self.now)) (images_b self.now (moment_b self.now)) }
        ensures between { IsBetweenTurns (server self.now).state };
}
