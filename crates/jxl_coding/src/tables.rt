//! What parse settles, and the symbols that are read by it.

ghost use Rattle.std.specs.Prelude.{◌≡◌, ◌<◌, ◌≤◌, ◌^◌, length, All, IfOk, IfErr};
ghost use Rattle.std.specs.Option.{option_to_list};
ghost use Rattle.jxlm_bits.specs.Bits.{bytes_of, position_of};
ghost use Rattle.jxl_coding_codes.specs.IntegerConfigs.{IsConfig};
ghost use Rattle.jxl_coding_codes.specs.PrefixCodes.{codeword_at};
ghost use Rattle.jxl_coding_codes.specs.Reading.{Exactly};
ghost use Rattle.jxl_coding.specs.Symbols.{cluster_code as the_cluster_code, symbol_at};
ghost use Rattle.jxl_coding.specs.Inner.Lookups.{AreLookups};

use crate::codes::{ClusterCode, Coder, Lz77};
use jxl_coding_codes::ans::{Bucket, refilled, slot_of};
use jxl_coding_codes::codeword::codeword;
use jxl_coding_codes::config::IntegerConfig;
use jxl_coding_codes::lookup::Lookup;
use jxlm_bits::bits::Bitstream;
use jxlm_bits::decoder::DecoderError;

/// What parse settles: the cluster of each context, the rule of copies, and the codes of the clusters.
#[derive(Drop)]
pub struct Tables {
    pub clusters: Vec<u8>,
    pub lz77: Option<Lz77>,
    pub cluster_codes: Vec<ClusterCode>,
    pub coder: Coder,
    /// How many slots a bucket has, as a power of 2.
    pub bucket_shift: u32,
    pub symbols: Vec<u32>,
    pub buckets: Vec<Bucket>,
    /// Tables of the codewords of each cluster; none where symbols are slots.
    pub lookups: Vec<Lookup>,
    /// The sum of the sizes of the alphabets.
    pub alphabets: u64,
    ghost rules: { All (λ code. IsConfig code.config) cluster_codes.items },
    ghost copy_rule: { All (λ lz77. IsConfig lz77.length_config) (option_to_list lz77) },
    ghost shift: { bucket_shift ≤ 12 },
    ghost codewords: { AreLookups cluster_codes.items symbols.items lookups.items },
}

impl Tables {
    ghost use Rattle.jxl_coding.specs.Inner.Seen.{codes_of};
    ghost use Rattle.jxl_coding.specs.Inner.Reads.{SymbolGives};

    /// The code of a cluster.
    #[inline(always)]
    pub fn cluster_code(&self, cluster: u8) -> ClusterCode
        ensures code { result ≡ the_cluster_code self.now.cluster_codes.items cluster }
        ensures config { IsConfig result.config }
    {
        match self.cluster_codes.get(cluster as usize) {
            Some(code) => *code,
            None => ClusterCode {
                config: IntegerConfig {
                    split_exponent: 0,
                    msb_in_token: 0,
                    lsb_in_token: 0,
                },
                only: Some(0),
                start: 0,
                counts: [0; 15],
            },
        }
    }

    /// The symbol of the codeword at the reader's position, bit by bit.
    #[inline(never)]
    fn long_codeword(&self, cluster: u8, bits: &mut Bitstream<'_>) -> Result<u32, DecoderError>
        ensures gives { Exactly result (position_of bits.new)
            (codeword_at (the_cluster_code self.now.cluster_codes.items cluster).counts self.now.symbols.items 0
            (the_cluster_code self.now.cluster_codes.items cluster).start (bytes_of bits.old) (position_of bits.old)) }
        ensures bytes { bytes_of bits.new ≡ bytes_of bits.old }
    {
        let code = self.cluster_code(cluster);
        codeword(bits, &code.counts, &self.symbols, code.start)
    }

    /// The same, by the cluster's table where that has it.
    #[inline(always)]
    fn codeword(&self, cluster: u8, bits: &mut Bitstream<'_>) -> Result<u32, DecoderError>
        ensures gives { Exactly result (position_of bits.new)
            (codeword_at (the_cluster_code self.now.cluster_codes.items cluster).counts self.now.symbols.items 0
            (the_cluster_code self.now.cluster_codes.items cluster).start (bytes_of bits.old) (position_of bits.old)) }
        ensures bytes { bytes_of bits.new ≡ bytes_of bits.old }
    {
        if self.lookups.len() <= cluster as usize {
            return self.long_codeword(cluster, bits);
        }
        match self.lookups[cluster as usize].symbol(bits) {
            Some(symbol) => Ok(symbol),
            None => self.long_codeword(cluster, bits),
        }
    }

    /// The next symbol of a cluster, by its code. After an error the reader is somewhere, and the state as it was.
    #[tactic(auto, unfolding(crate::specs::Symbols::symbol_with, crate::specs::Symbols::coded_symbol))]
    #[inline(always)]
    pub fn symbol_by(
        &self,
        code: &ClusterCode,
        cluster: u8,
        ans_state: &mut u32,
        bits: &mut Bitstream<'_>,
    ) -> Result<u32, DecoderError>
        requires { code.now ≡ the_cluster_code self.now.cluster_codes.items cluster }
        ensures gives { SymbolGives result ans_state.new (position_of bits.new)
            (symbol_at (codes_of self.now) cluster ans_state.old (bytes_of bits.old) (position_of bits.old)) }
        ensures bytes { bytes_of bits.new ≡ bytes_of bits.old }
    {
        if let Some(only) = code.only {
            return Ok(only);
        }
        match self.coder {
            Coder::Prefix => self.codeword(cluster, bits),
            Coder::Ans => {
                let slot = slot_of(
                    &self.buckets,
                    code.start,
                    self.bucket_shift,
                    *ans_state % 4096,
                );
                let state = refilled(bits, slot.next(*ans_state))?;
                *ans_state = state;
                Ok(slot.symbol)
            }
        }
    }

    /// The next symbol of a cluster. After an error the reader is somewhere, and the state as it was.
    #[inline(always)]
    pub fn symbol_of(
        &self,
        cluster: u8,
        ans_state: &mut u32,
        bits: &mut Bitstream<'_>,
    ) -> Result<u32, DecoderError>
        ensures gives { SymbolGives result ans_state.new (position_of bits.new)
            (symbol_at (codes_of self.now) cluster ans_state.old (bytes_of bits.old) (position_of bits.old)) }
        ensures bytes { bytes_of bits.new ≡ bytes_of bits.old }
    {
        let code = self.cluster_code(cluster);
        self.symbol_by(&code, cluster, ans_state, bits)
    }
}
