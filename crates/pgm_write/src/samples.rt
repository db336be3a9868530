// A run of samples copied into a buffer. No `copy_from_slice`: it calls `memmove`, which the archive for C would then need from outside.
ghost use Rattle.std.specs.Prelude.{◌≡◌, ◌+◌, ◌≤◌, length};
ghost use Rattle.std.proofs.lemmas.List.Edits.{sets};

// Stores the samples from `at` on.
pub fn put_samples(buffer: &mut [u8], at: usize, samples: &[u8])
    requires { at + length samples.now ≤ length buffer.old }
    ensures buffer { buffer.new ≡ sets buffer.old at samples.now }
{
    for (i, sample) in samples.iter().enumerate() {
        buffer[at + i] = *sample;
    }
}
