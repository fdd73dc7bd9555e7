ghost use Rattle.std.specs.Prelude.{◌≡◌, ◌+◌, ◌≤◌, replicate, is_some, Some, None, slice_set};
ghost use Rattle.roll.specs.Voices.{one, voice as voice_of};

use crate::sounding::Sounding;

impl<V: Copy> Sounding<V> {
    pub fn new() -> Sounding<V>
        ensures voices { result.voices ≡ replicate 128 None }
        ensures count { result.count ≡ 0 }
    {
        Sounding {
            voices: [None; 128],
            count: 0,
        }
    }

    // How many tickets sound.
    pub fn count(&self) -> usize
        ensures { result ≡ self.now.count }
    {
        self.count
    }

    // What is kept of a ticket, if it sounds.
    pub fn voice(&self, ticket: u16) -> Option<V>
        ensures { result ≡ voice_of self.now.voices ticket }
    {
        self.voices.get(usize::from(ticket)).copied().flatten()
    }

    // A ticket sounds from now on.
    pub fn begin(&mut self, ticket: u16, voice: V)
        ensures voices { self.new.voices ≡ slice_set self.old.voices ticket (Some voice) }
        ensures count { self.new.count ≤ self.old.count + 1 }
    {
        self.put(ticket, Some(voice));
    }

    // A ticket sounds no more.
    pub fn stop(&mut self, ticket: u16)
        ensures voices { self.new.voices ≡ slice_set self.old.voices ticket None }
        ensures count { self.new.count + one (is_some (voice_of self.old.voices ticket)) ≡ self.old.count }
    {
        self.put(ticket, None);
    }

    fn put(&mut self, ticket: u16, voice: Option<V>)
        ensures voices { self.new.voices ≡ slice_set self.old.voices ticket voice }
        ensures most { self.new.count + one (is_some (voice_of self.old.voices ticket)) ≤ self.old.count + one (is_some voice) }
        ensures least { self.old.count ≤ self.new.count + one (is_some (voice_of self.old.voices ticket)) }
    {
        let before = self.voice(ticket);
        let i = usize::from(ticket);
        // Tried with `get_mut`: the proof does not close, since it knows no element of an array after that.
        if i < self.voices.len() {
            self.voices[i] = voice;
            self.count -= usize::from(before.is_some());
            self.count += usize::from(voice.is_some());
        }
    }
}
