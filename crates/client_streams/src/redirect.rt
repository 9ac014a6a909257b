//! Where a stream writes and reads.

ghost use Rattle.std.specs.Prelude.{◌≡◌};
ghost use Rattle.client_streams.specs.Statements.{with_output, with_input};

use client_machine::inputs::Stream;

/// The stream writes to this section from now on, None for the default one.
pub(crate) fn set_output(streams: &mut Vec<Stream>, stream: u32, output: Option<u32>)
    ensures { streams.new.items ≡ with_output stream output streams.old.items }
{
    if let Some(stream) = streams.get_mut(stream as usize) {
        stream.output = output;
    }
}

/// The stream reads this input from its start, None for the client's own one, at its last place.
pub(crate) fn set_input(streams: &mut Vec<Stream>, stream: u32, input: Option<u32>)
    ensures { streams.new.items ≡ with_input stream input streams.old.items }
{
    if let Some(stream) = streams.get_mut(stream as usize) {
        stream.input = input;
        stream.at = 0;
    }
}
