// The number of the exported interface, for callers that are built apart from the archive.
ghost use Rattle.std.specs.Prelude.{◌≡◌};
ghost use Rattle.rosmarel.specs.Interface.{interface};

const INTERFACE: u64 = 5;

// The interface that this archive has.
#[unsafe(no_mangle)]
pub extern "C" fn rosmarel_interface() -> u64
    ensures { result ≡ interface }
{
    INTERFACE
}
