ghost use Rattle.std.specs.Prelude.{◌≡◌, Bool, true, ◌||◌};
ghost use Rattle.roll.specs.declared.note.Note.{Note};

use roll::note::Note;

// An order in which notes are hushed: whether one goes before another or level with it.
// It is total, and carries through a third.
pub trait Order: Copy {
    ghost before: { Self → Note → Note → Bool };

    fn goes_before(&self, one: Note, other: Note) -> bool
        ensures { result ≡ before self.now one other };

    ghost total: { (o : Self) (m n : Note) → (before o m n || before o n m) ≡ true };

    ghost carries: { (o : Self) (l m n : Note) → before o l m ≡ true → before o m n ≡ true → before o l n ≡ true };
}

pub mod ours;
