ghost use Rattle.std.specs.Prelude.{◌≡◌, ℕ, ◌+◌, ◌<◌, ◌≤◌, true, false, [], ◌∷◌, ◌++◌, take, IfSome, option_map, unwrap_or, slice_index_or, slice_set};
ghost use Rattle.roll.specs.Notes.{found, picked, left_out, marked, marked_at, blank, full, added, lists};
ghost use Rattle.roll.specs.Rolls.{listed};

use crate::note::{Note, Pick};
use crate::roll::Roll;

impl Roll {
    pub fn new() -> Roll
        ensures { listed result ≡ [] }
    {
        Roll {
            notes: [Note::BLANK; 128],
            count: 0,
        }
    }

    // Whether all 128 places are in use.
    pub fn is_full(&self) -> bool
        ensures full { result ≡ full (listed self.now) }
        ensures room { result ≡ false → self.now.count < 128 }
    {
        self.count >= 128
    }

    // The place of the first note with a ticket.
    fn index(&self, ticket: u16) -> Option<usize>
        ensures within { IfSome result (λ i. i < self.now.count) }
        ensures finds { found ticket (listed self.now) ≡ option_map (λ i. slice_index_or self.now.notes i blank) result }
        ensures marks { marked ticket (listed self.now) ≡ unwrap_or (option_map (λ i. take self.now.count (marked_at i self.now.notes)) result) (listed self.now) }
    {
        self.notes().iter().position(|note| note.ticket == ticket)
    }

    // The note of a ticket, if the roll has it.
    pub fn find(&self, ticket: u16) -> Option<Note>
        ensures { result ≡ found ticket (listed self.now) }
    {
        self.index(ticket).map(|i| self.notes[i])
    }

    // The least ticket that the roll does not have; a full roll may have all below 128.
    pub fn free_ticket(&self) -> u16
        ensures small { result < 128 }
        ensures fresh { full (listed self.now) ≡ false → lists (listed self.now) result ≡ false }
        ensures least { (u : ℕ) → u < result → lists (listed self.now) u ≡ true }
    {
        (0..127)
            .find(|ticket| self.find(*ticket).is_none())
            .unwrap_or(127)
    }

    // One more note, the youngest; a full roll stays as it is.
    pub fn add(&mut self, note: Note)
        ensures { listed self.new ≡ added note (listed self.old) }
    {
        if !self.is_full() {
            self.push(note);
        }
    }

    fn push(&mut self, note: Note)
        requires { self.old.count < 128 }
        ensures listed { listed self.new ≡ listed self.old ++ (note ∷ []) }
        ensures count { self.new.count ≡ self.old.count + 1 }
        ensures notes { self.new.notes ≡ slice_set self.old.notes self.old.count note }
    {
        self.notes[self.count] = note;
        self.count += 1;
    }

    // Marks the note at a place as kept.
    fn mark_at(&mut self, i: usize)
        requires { i < 128 }
        ensures count { self.new.count ≡ self.old.count }
        ensures notes { self.new.notes ≡ marked_at i self.old.notes }
    {
        let note = &mut self.notes[i];
        note.kept = true;
    }

    // Marks the note of a ticket as kept, and touches no other.
    pub fn mark(&mut self, ticket: u16)
        ensures { listed self.new ≡ marked ticket (listed self.old) }
    {
        if let Some(i) = self.index(ticket) {
            self.mark_at(i);
        }
    }

    // Drops the notes that are meant; the others keep their order.
    pub fn drop_picked(&mut self, pick: Pick)
        ensures { listed self.new ≡ left_out (picked pick) (listed self.old) }
    {
        // By index, so that the table is not copied at each release: a note is read before its place is written.
        let count = self.count;
        self.count = 0;
        for i in 0..count {
            let entry = self.notes[i];
            if !pick.takes(entry) {
                self.push(entry);
            }
        }
    }
}
