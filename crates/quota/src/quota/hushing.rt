ghost use Rattle.std.specs.Prelude.{◌≡◌, Some};
ghost use Rattle.rolled.specs.Rolled.{notes_of};
ghost use Rattle.quota.specs.Orders.{Chosen, better, sounding_among};
ghost use Rattle.quota.specs.Hushing.{HushNext, HushedDown, sounding_count};

use crate::order::Order;
use crate::quota::Quota;
use roll::note::Note;
use sink::sink::Sink;

// The better of the best so far and a younger note.
fn better<O: Order>(order: &O, best: Note, note: Note) -> Note
    ensures { result ≡ better (O.Order.before order.now) (Some best) note }
{
    if order.goes_before(best, note) {
        best
    } else {
        note
    }
}

impl<S: Sink, O: Order> Quota<S, O> {
    // How many notes sound.
    fn count_sounding(&self) -> usize
        ensures { result ≡ sounding_count S.Sink.meaning (notes_of self.now.rolled) self.now.rolled.below }
    {
        let notes = self.rolled.roll.notes().iter().copied();
        notes.filter(|note| self.sounds(note.ticket)).count()
    }

    // The foremost of the notes that sound.
    fn foremost(&self) -> Option<Note>
        ensures { Chosen (O.Order.before self.now.order) (sounding_among (S.Sink.meaning self.now.rolled.below).sounding (notes_of self.now.rolled)) result }
    {
        let notes = self.rolled.roll.notes().iter().copied();
        notes
            .filter(|note| self.sounds(note.ticket))
            .reduce(|best, note| better(&self.order, best, note))
    }

    // Hushes the foremost of the notes that sound.
    fn hush_next(&mut self, place: u64)
        ensures below { HushNext S.Sink.meaning S.Sink.does (O.Order.before self.old.order) place (notes_of self.old.rolled) self.old.rolled.below self.new.rolled.below }
        ensures roll { self.new.rolled.roll ≡ self.old.rolled.roll }
        ensures limit { self.new.limit ≡ self.old.limit }
        ensures order { self.new.order ≡ self.old.order }
    {
        if let Some(note) = self.foremost() {
            let _ = self.rolled.below.hush(place, note.ticket);
        }
    }

    // Hushes notes until at most so many sound. How many that takes is counted beforehand.
    pub(crate) fn make_room(&mut self, place: u64, most: u8)
        ensures rolled { HushedDown S.Sink.meaning S.Sink.does (O.Order.before self.old.order) place most self.old.rolled self.new.rolled }
        ensures limit { self.new.limit ≡ self.old.limit }
        ensures order { self.new.order ≡ self.old.order }
    {
        let excess = self.count_sounding().saturating_sub(usize::from(most));
        for _ in 0..excess {
            self.hush_next(place);
        }
    }
}
