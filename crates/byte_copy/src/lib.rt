// Copying bytes to the front of a lent output.

#![tactic(auto)]

ghost use Rattle.std.specs.Prelude.{◌≡◌};
ghost use Rattle.byte_copy.specs.Copied.{copied};

// Copies bytes to the front of a lent output: as many of them as it has room for. The rest of the output is unchanged.
pub fn copy(bytes: &[u8], out: &mut [u8])
    ensures { out.new ≡ copied bytes.now out.old }
{
    let n = bytes.len().min(out.len());
    // Not by copy_from_slice: that needs memmove, and the archive for C may need memcpy and memset alone.
    for i in 0..n {
        out[i] = bytes[i];
    }
}
