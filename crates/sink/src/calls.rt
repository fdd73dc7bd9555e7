ghost use Rattle.std.specs.Prelude.{◌≡◌, ◌-◌, ◌≤◌, MatchOption};
ghost use Rattle.sink.specs.Calls.{startable, tellable, heard};

// What a start asks for: a key of a channel, and how hard it is struck.
#[derive(Clone, Copy, PartialEq, Eq, Debug)]
pub struct NoteOn {
    pub channel: u8,
    pub key: u8,
    pub velocity: u8,
}

impl NoteOn {
    // Whether all numbers are in range.
    pub fn is_startable(self) -> bool
        ensures { result ≡ startable self.channel self.key self.velocity }
    {
        self.channel <= 15 && self.key <= 127 && (1..=127).contains(&self.velocity)
    }
}

// A controller message.
#[derive(Clone, Copy, PartialEq, Eq, Debug)]
pub struct ControlChange {
    pub channel: u8,
    pub controller: u8,
    pub value: u8,
}

impl ControlChange {
    // Whether all numbers are in range, and sinks listen to the controller.
    pub fn is_tellable(self) -> bool
        ensures { result ≡ tellable self.channel self.controller self.value }
    {
        self.channel <= 15 && self.value <= 127 && is_heard(self.controller)
    }
}

// Whether sinks listen to a controller: the sustain and sostenuto pedals and the channel mode messages but local control.
fn is_heard(controller: u8) -> bool
    ensures { result ≡ heard controller }
{
    matches!(controller, 64 | 66 | 120 | 121 | 123..=127)
}

// A value for an item of the layer at a depth: 0 is the sink called.
#[derive(Clone, Copy, PartialEq, Eq, Debug)]
pub struct Setting {
    pub depth: u32,
    pub item: u32,
    pub value: i32,
}

impl Setting {
    // The setting as the sink below is asked for it, or none where the sink called is meant.
    pub fn below(self) -> Option<Setting>
        ensures { MatchOption result (self.depth ≡ 0) (λ s. (1 ≤ self.depth) × (s.depth ≡ self.depth - 1) × (s.item ≡ self.item) × (s.value ≡ self.value)) }
    {
        Some(Setting {
            depth: self.depth.checked_sub(1)?,
            ..self
        })
    }
}
