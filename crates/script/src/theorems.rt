ghost use Rattle.script.specs.Laws.{CommentsSkipped, BlanksSkipped, BytesReturn, NumbersReturn, Examples};

// The laws of a script's lines. It does nothing else than to state them.
pub fn laws()
    ensures comments { CommentsSkipped }
    ensures blanks { BlanksSkipped }
    ensures bytes { BytesReturn }
    ensures numbers { NumbersReturn }
    ensures examples { Examples }
{}
