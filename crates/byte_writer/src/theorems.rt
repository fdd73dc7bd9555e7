ghost use Rattle.byte_writer.specs.Laws.{MessagesReadBack, CallsReadBack, AllReadBack, SixBytesAStart, FirstStarts};

// The laws of the bytes and of their space, which hold of every writer. It does nothing else than to state them.
pub fn laws()
    ensures messages { MessagesReadBack }
    ensures calls { CallsReadBack }
    ensures all { AllReadBack }
    ensures space { SixBytesAStart }
    ensures examples { FirstStarts }
{}
