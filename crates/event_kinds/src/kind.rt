ghost use Rattle.std.specs.Prelude.{◌≡◌, ℕ, List, Result as Answer};
ghost use Rattle.event_text.specs.declared.fault.TextFault.{TextFault as Fault};
ghost use Rattle.runs.specs.declared.call.Call.{Call as Said};

use event_text::TextFault;
use keys::KeyKind;
use runs::Call;

// A kind of key with a text: which call a line says.
pub trait EventKind: KeyKind {
    // What a line of bytes says.
    ghost read: { List ℕ → Answer (Said Self.Declared) Fault };

    fn read_event(line: &[u8]) -> Result<Call<Self::Declared>, TextFault>
        ensures { result ≡ read line.now };
}
