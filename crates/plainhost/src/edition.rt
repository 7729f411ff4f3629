// Which edition of the interface this archive has: a host with another header would read the state's
// bytes for what they are not.
ghost use Rattle.std.specs.Prelude.{◌≡◌};
ghost use Rattle.plainhost.specs.Edition.{layout};

pub const LAYOUT: u32 = 3524407202;

// The number of the layout of all that goes into the calls and comes out.
#[unsafe(no_mangle)]
pub extern "C" fn presscurlew_plain_layout() -> u32
    ensures { result ≡ layout }
{
    LAYOUT
}
