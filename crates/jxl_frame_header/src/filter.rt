//! Filters of what was decoded.

ghost use Rattle.std.specs.Prelude.{◌≡◌, ◌||◌, ◌==◌, not, if◌then◌else◌, Some, None};
ghost use Rattle.jxlm_bits.specs.Grammar.{Reads, HasRead};
ghost use Rattle.jxl_image_header.specs.Fields.{when};
ghost use Rattle.jxl_frame_header.specs.Filters.{own_floats as the_own_floats, filter};
ghost use Rattle.jxl_frame_header.specs.declared.refusal.Refusal.TheVariants as refusals;

use crate::refusal::Refusal;
use jxl_image_header::fields::{
    Result, bundle_follows, extensions_if, flag_if, number_if, skip_if,
};
use jxlm_bits::bits::Bitstream;

/// Filters of what was decoded.
#[derive(Clone, Copy)]
pub struct RestorationFilter {
    /// Whether a smoothing filter is applied.
    pub gab: bool,
    /// How often a filter that keeps edges is applied, at most 3.
    pub epf_iters: u32,
    /// A bit for each extension that there is; what they hold is passed.
    pub extensions: u64,
}

#[tactic(auto, unfolding(crate::specs::Filters::own_floats))]
fn own_floats(bits: &mut Bitstream<'_>, count: u32) -> Result<()>
    ensures { HasRead Reads (λ v. v) result bits.old bits.new (the_own_floats count) }
{
    let own = bits.read_bool()?;
    skip_if(bits, own, count)
}

fn own_floats_if(bits: &mut Bitstream<'_>, there: bool, count: u32) -> Result<()>
    ensures { HasRead Reads (λ v. v) result bits.old bits.new (when there (the_own_floats count) tt) }
{
    if there {
        own_floats(bits, count)
    } else {
        Ok(())
    }
}

fn sigma_bytes(modular: bool) -> u32
    ensures { result ≡ (if modular then 6 else 8) }
{
    if modular { 6 } else { 8 }
}

impl RestorationFilter {
    /// The filters of a frame that is Modular or not, as they stand at the reader's position, where they may be told;
    /// their floats and extensions are passed.
    #[tactic(auto, unfolding(crate::specs::Filters::filter))]
    pub fn parse(bits: &mut Bitstream<'_>, there: bool, modular: bool) -> Result<RestorationFilter>
        ensures { HasRead Reads (λ v. v) result bits.old bits.new (filter there modular) }
    {
        let follows = bundle_follows(bits, there)?;
        let gab = flag_if(bits, follows, true)?;
        own_floats_if(bits, follows & gab, 12)?;
        let epf_iters = number_if(bits, follows, 2, 2)?;
        let edges = follows & (epf_iters != 0);
        own_floats_if(bits, edges & !modular, 16)?;
        own_floats_if(bits, edges, 10)?;
        own_floats_if(bits, edges, sigma_bytes(modular))?;
        skip_if(bits, edges & modular, 2)?;
        let extensions = extensions_if(bits, follows)?;
        Ok(RestorationFilter {
            gab,
            epf_iters,
            extensions,
        })
    }

    /// What of it is not supported: a filter.
    pub fn refused(&self) -> Option<Refusal>
        ensures { result ≡ (if self.now.gab || not (self.now.epf_iters == 0) then Some refusals.LoopFilter else None) }
    {
        if self.gab || self.epf_iters != 0 {
            Some(Refusal::LoopFilter)
        } else {
            None
        }
    }
}
