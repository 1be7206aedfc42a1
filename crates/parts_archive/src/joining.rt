// Joining.
ghost use Rattle.wire.specs.Call.{Gives};
ghost use Rattle.parts_c.specs.Joining.{open_code, open_after, outcome, JoinLeaves};

#[unsafe(no_mangle)]
pub extern "C" fn kdr_open(assembly: &mut [u64], what: u64) -> u64
    ensures { Gives (open_code what assembly.old) (open_after what assembly.old) result assembly.new }
{
    parts_c::kdr_open(assembly, what)
}

#[unsafe(no_mangle)]
pub extern "C" fn kdr_join(
    assembly: &mut [u64],
    buffer: &mut [u8],
    side: u8,
    bytes: &[u8],
    told: &mut [u64],
) -> u64
    ensures { JoinLeaves (outcome assembly.old buffer.old side bytes.now told.old)
        result assembly.new buffer.new told.new }
{
    parts_c::kdr_join(assembly, buffer, side, bytes, told)
}
