// Which edition of the interface this archive has: a host with another header would read the state's
// bytes for what they are not.
ghost use Rattle.std.specs.Prelude.{◌≡◌};
ghost use Rattle.host.specs.Edition.{version, layout};

pub const VERSION: u32 = 11000;

pub const LAYOUT: u32 = 2252050035;

// The version: a million for each major and a thousand for each minor number.
#[unsafe(no_mangle)]
pub extern "C" fn presscurlew_version() -> u32
    ensures { result ≡ version }
{
    VERSION
}

// The number of the layout of all that goes into the calls and comes out.
#[unsafe(no_mangle)]
pub extern "C" fn presscurlew_layout() -> u32
    ensures { result ≡ layout }
{
    LAYOUT
}
