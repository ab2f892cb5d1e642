//! The durations of a chain.
ghost use Rattle.std.specs.Prelude.{◌≡◌, ◌+◌, ◌%◌, ◌++◌, OnOk};
ghost use Rattle.rand_pcg.specs.Pcg.{pcg32};
ghost use Rattle.opl_generate.specs.Texts.{duration as the_duration, durations, listed};

use crate::number::push_number;
use rand_core::SeedableRng;
use rand_core::utils::NextWord;
use rand_pcg::Pcg32;
use std::alloc::AllocError;

/// Draws a duration: 1 to 9.
fn duration(source: &mut Pcg32) -> u32
    ensures value { result ≡ the_duration (pcg32 source.old).0 }
    ensures rest { source.new ≡ (pcg32 source.old).1 }
{
    1 + source.next_word() % 9
}

/// Writes as many durations as there are activities, with commas between them.
pub(crate) fn push_durations(text: &mut Vec<u8>, size: u64, seed: u64) -> Result<(), AllocError>
    ensures { OnOk result (text.new.items ≡ text.old.items ++ listed (durations size seed)) }
{
    let mut source = Pcg32::seed_from_u64(seed);
    for number in 0..size {
        if number > 0 {
            text.extend_from_slice(b",")?;
        }
        push_number(text, u64::from(duration(&mut source)))?;
    }
    Ok(())
}
