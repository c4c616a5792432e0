// The C interface: each call on numbers and slices, its answer one signed number. What more a call tells goes through the references lent for it.
#![tactic(auto)]

mod totals;

ghost use Rattle.std.specs.Prelude.{◌≡◌, not, eqb, length};
ghost use Rattle.refusal.specs.Outcome.{judged, kept};
ghost use Rattle.checksum.specs.Register.{crc14};
ghost use Rattle.crc.specs.Block.{block, carried};
ghost use Rattle.crc.specs.Calls as crc_calls;
ghost use Rattle.rules.specs.Rules.{as_stored};
ghost use Rattle.tanner.specs.Checks.{syndrome_of_bytes};
ghost use Rattle.ldpc.specs.Calls as ldpc_calls;
ghost use Rattle.code174.specs.Code174.{checks};
ghost use Rattle.ldpc_encoding.specs.Calls as encoding_calls;
ghost use Rattle.ldpc_encoding.specs.Encoding.{codeword_of};
ghost use Rattle.ldpc_codes.specs.Calls as staircase_calls;
ghost use Rattle.decoders.specs.Calls as decoders_calls;
ghost use Rattle.batch.specs.Pairs.{pairs_of};
ghost use Rattle.batch.specs.Calls as batch_calls;
ghost use Rattle.record_check.specs.Fields as records_fields;
ghost use Rattle.eighths.specs.Calls.{bytes_refusals, values_refusals, values_of, bytes_of};
ghost use Rattle.filling.specs.Filling.{filled_word, filled_places, listed};
ghost use Rattle.numbered.specs.Codes.{checks_by};
ghost use Rattle.erasure.specs.Calls.{erasure_refusals};
ghost use Rattle.cycles.specs.Calls.{cycle_refusals, report_by, written_by};
ghost use Rattle.packing.specs.Packing.{packed_word, unpacked_word, pack_refusals, unpack_refusals};
ghost use Rattle.clean_frames.specs.Calls.{frame_refusals, clean_number};
ghost use Rattle.reason.specs.Calls as reason_calls;
ghost use Rattle.coded.specs.Coded.{coded, coded_unit, lent};
ghost use Rattle.coded_parts.specs.Parts.{Counts, Lists};
ghost use Rattle.desklink.specs.Calls.{DecodeCall, BatchCall, GroupsCall, ReasonCall};

use record_check::Pair;

// ---- the checksum

#[unsafe(no_mangle)]
pub extern "C" fn desklink_ft8_crc14(message: &[u8], num_bits: usize) -> i32
    ensures { result ≡ coded (judged (crc_calls.crc14_refusals message.now num_bits) (crc14 message.now num_bits)) }
{
    coded::answer_code(crc::ft8_crc14(message, num_bits))
}

#[unsafe(no_mangle)]
pub extern "C" fn desklink_ft8_add_crc(payload: &[u8], a91: &mut [u8]) -> i32
    ensures value { result ≡ coded_unit (judged (crc_calls.add_refusals payload.now a91.old) tt) }
    ensures a91_after { a91.new
        ≡ kept (crc_calls.add_refusals payload.now a91.old) a91.old (block payload.now) }
{
    coded::status_code(crc::ft8_add_crc(payload, a91))
}

#[unsafe(no_mangle)]
pub extern "C" fn desklink_ft8_extract_crc(a91: &[u8]) -> i32
    ensures { result ≡ coded (judged (crc_calls.extract_refusals a91.now) (carried a91.now)) }
{
    coded::answer_code(crc::ft8_extract_crc(a91))
}

// ---- the (174,91) code

#[unsafe(no_mangle)]
pub extern "C" fn desklink_ldpc_encode(message: &[u8], codeword: &mut [u8]) -> i32
    ensures value { result ≡ coded_unit (judged (encoding_calls.encode_refusals message.now codeword.old) tt) }
    ensures codeword_after { codeword.new
        ≡ kept (encoding_calls.encode_refusals message.now codeword.old) codeword.old (codeword_of message.now) }
{
    coded::status_code(ldpc_encoding::ldpc_encode(message, codeword))
}

// `first` gets the lowest check that the count includes, or 65535.
#[unsafe(no_mangle)]
pub extern "C" fn desklink_ldpc_count_errors(hard: &[u8], first: &mut u16) -> i32
    ensures { Counts (judged (ldpc_calls.count_refusals hard.now) (syndrome_of_bytes checks hard.now))
        result (lent first.old first.new) }
{
    coded_parts::counting_code(ldpc::ldpc_count_errors(hard), first)
}

#[unsafe(no_mangle)]
pub extern "C" fn desklink_ldpc_decode_soft_unguarded(
    llr: &[f32],
    limit: u16,
    plain: &mut [u8],
    rounds: &mut u16,
    first: &mut u16,
    work: &mut [f32],
) -> i32
    ensures { DecodeCall (decoders_calls.ft8_soft llr.now limit plain.old work.old)
        result (lent rounds.old rounds.new) (lent first.old first.new) plain.new work.new }
{
    coded_parts::decoding_code(
        decoders::ldpc_decode_soft(llr, limit, plain, work),
        rounds,
        first,
    )
}

// ---- the staircase codes

#[unsafe(no_mangle)]
pub extern "C" fn desklink_encode(code: u32, message: &[u8], codeword: &mut [u8]) -> i32
    ensures value { result ≡ coded_unit (judged (staircase_calls.encode_refusals code message.now codeword.old) tt) }
    ensures codeword_after { codeword.new
        ≡ kept (staircase_calls.encode_refusals code message.now codeword.old) codeword.old
        (staircase_calls.encoded_by code message.now) }
{
    coded::status_code(ldpc_codes::encode(code, message, codeword))
}

#[unsafe(no_mangle)]
pub extern "C" fn desklink_syndrome_weight(code: u32, hard: &[u8], first: &mut u16) -> i32
    ensures { Counts (judged (staircase_calls.weight_refusals code hard.now) (staircase_calls.syndrome_by code hard.now))
        result (lent first.old first.new) }
{
    coded_parts::counting_code(ldpc_codes::syndrome_weight(code, hard), first)
}

#[unsafe(no_mangle)]
pub extern "C" fn desklink_decode_soft_unguarded(
    code: u32,
    limit: u16,
    llr: &[f32],
    bits: &mut [u8],
    rounds: &mut u16,
    first: &mut u16,
    work: &mut [f32],
) -> i32
    ensures { DecodeCall (decoders_calls.soft code limit llr.now bits.old work.old)
        result (lent rounds.old rounds.new) (lent first.old first.new) bits.new work.new }
{
    coded_parts::decoding_code(
        decoders::decode_soft(code, limit, llr, bits, work),
        rounds,
        first,
    )
}

#[unsafe(no_mangle)]
pub extern "C" fn desklink_decode_soft_with_unguarded(
    code: u32,
    rule: u32,
    scale: f32,
    limit: u16,
    llr: &[f32],
    bits: &mut [u8],
    rounds: &mut u16,
    first: &mut u16,
    work: &mut [f32],
) -> i32
    ensures { DecodeCall (decoders_calls.soft_with code rule scale limit llr.now bits.old work.old)
        result (lent rounds.old rounds.new) (lent first.old first.new) bits.new work.new }
{
    coded_parts::decoding_code(
        decoders::decode_soft_with(code, rule, scale, limit, llr, bits, work),
        rounds,
        first,
    )
}

// ---- the batch

#[unsafe(no_mangle)]
pub extern "C" fn desklink_decode_batch_unguarded(
    code: u32,
    rule: u32,
    limit: u16,
    scale: f32,
    values: &[f32],
    pairs: &[u32],
    bits: &mut [u8],
    counts: &mut [u16],
    rounds: &mut [u16],
    firsts: &mut [u16],
    work: &mut [f32],
) -> i32
    ensures { BatchCall
        (batch_calls.batch code rule limit scale values.now (pairs_of pairs.now)
        (batch_calls.lent bits.old counts.old rounds.old firsts.old work.old))
        result
        (batch_calls.lent bits.new counts.new rounds.new firsts.new work.new) }
{
    coded::status_code(batch::decode_batch(
        code, rule, limit, scale, values, pairs, bits, counts, rounds, firsts, work,
    ))
}

// The same over a list of pair records.
#[unsafe(no_mangle)]
pub extern "C" fn desklink_decode_pairs_unguarded(
    code: u32,
    rule: u32,
    limit: u16,
    scale: f32,
    values: &[f32],
    pairs: &[Pair],
    bits: &mut [u8],
    counts: &mut [u16],
    rounds: &mut [u16],
    firsts: &mut [u16],
    work: &mut [f32],
) -> i32
    ensures { BatchCall
        (batch_calls.batch code rule limit scale values.now (records_fields.pairs_of pairs.now)
        (batch_calls.lent bits.old counts.old rounds.old firsts.old work.old))
        result
        (batch_calls.lent bits.new counts.new rounds.new firsts.new work.new) }
{
    coded::status_code(records::decode_pairs(
        code, rule, limit, scale, values, pairs, bits, counts, rounds, firsts, work,
    ))
}

// The batch over flat slices, of a batch that was stored when rule 3 stood for rule 0.
#[unsafe(no_mangle)]
pub extern "C" fn desklink_decode_stored_batch_unguarded(
    code: u32,
    rule: u32,
    limit: u16,
    scale: f32,
    values: &[f32],
    pairs: &[u32],
    bits: &mut [u8],
    counts: &mut [u16],
    rounds: &mut [u16],
    firsts: &mut [u16],
    work: &mut [f32],
) -> i32
    ensures { BatchCall
        (batch_calls.batch code (as_stored rule) limit scale values.now (pairs_of pairs.now)
        (batch_calls.lent bits.old counts.old rounds.old firsts.old work.old))
        result
        (batch_calls.lent bits.new counts.new rounds.new firsts.new work.new) }
{
    coded::status_code(batch::decode_stored_batch(
        code, rule, limit, scale, values, pairs, bits, counts, rounds, firsts, work,
    ))
}

// ---- groups

// The batch with a list of group sizes: the frames of a group are delivered together, or all its bit bytes are 255.
#[unsafe(no_mangle)]
pub extern "C" fn desklink_decode_groups_unguarded(
    code: u32,
    rule: u32,
    limit: u16,
    scale: f32,
    values: &[f32],
    pairs: &[u32],
    sizes: &[u32],
    bits: &mut [u8],
    counts: &mut [u16],
    rounds: &mut [u16],
    firsts: &mut [u16],
    work: &mut [f32],
) -> i32
    ensures { GroupsCall
        (batch_calls.batch code rule limit scale values.now (pairs_of pairs.now)
        (batch_calls.lent bits.old counts.old rounds.old firsts.old work.old))
        sizes.now
        result
        (batch_calls.lent bits.new counts.new rounds.new firsts.new work.new) }
{
    coded::status_code(groups::decode_groups(
        code, rule, limit, scale, values, pairs, sizes, bits, counts, rounds, firsts, work,
    ))
}

// ---- whether a frame is clean

// 1 where it is, and 0 where it is not.
#[unsafe(no_mangle)]
pub extern "C" fn desklink_frame_clean_unguarded(
    code: u32,
    values: &[f32],
    count: u16,
    bits: &[u8],
) -> i32
    ensures { result
        ≡ coded (judged (frame_refusals code values.now bits.now)
        (clean_number code values.now count bits.now)) }
{
    coded::flag_code(clean_frames::frame_clean(code, values, count, bits))
}

// ---- why a frame is open

// `part` gets the NaN's position, the check's number or the carried checksum, and `computed` the computed one; each 0 where there is none.
#[unsafe(no_mangle)]
pub extern "C" fn desklink_frame_reason_unguarded(
    code: u32,
    rule: u32,
    scale: f32,
    limit: u16,
    values: &[f32],
    word: &mut [u8],
    part: &mut u16,
    computed: &mut u16,
    work: &mut [f32],
) -> i32
    ensures { ReasonCall (reason_calls.asked code rule scale limit values.now word.old work.old)
        result (lent part.old part.new) (lent computed.old computed.new) word.new work.new }
{
    coded_parts::reason_code(
        reason::frame_reason(code, rule, scale, limit, values, word, work),
        part,
        computed,
    )
}

// ---- erasures

#[unsafe(no_mangle)]
pub extern "C" fn desklink_fill_erasures(code: u32, word: &mut [u8], places: &mut [u16]) -> i32
    ensures value { result
        ≡ coded (judged (erasure_refusals code word.old places.old) (length (filled_places (checks_by code) word.old))) }
    ensures word_after { word.new
        ≡ kept (erasure_refusals code word.old places.old) word.old (filled_word (checks_by code) word.old) }
    ensures places_after { places.new
        ≡ kept (erasure_refusals code word.old places.old) places.old
        (listed (filled_places (checks_by code) word.old) places.old) }
{
    coded::answer_code(erasure::fill_erasures(code, word, places))
}

// ---- the short cycles of a staircase code

#[unsafe(no_mangle)]
pub extern "C" fn desklink_list_cycles(code: u32, places: &mut [u16], relaxed: &mut u16) -> i32
    ensures lists { Lists (judged (cycle_refusals code places.old) (report_by code)) result (lent relaxed.old relaxed.new) }
    ensures places_after { places.new
        ≡ kept (cycle_refusals code places.old) places.old (written_by code places.old) }
{
    coded_parts::listed_code(cycles::list_cycles(code, places), relaxed)
}

// ---- soft values in eighths: any number but 0 says that positive counts as 1

#[unsafe(no_mangle)]
pub extern "C" fn desklink_values_of_bytes_unguarded(
    bytes: &[i8],
    positive_is_one: u32,
    values: &mut [f32],
) -> i32
    ensures value { result ≡ coded_unit (judged (bytes_refusals bytes.now values.old) tt) }
    ensures values_after { values.new
        ≡ kept (bytes_refusals bytes.now values.old) values.old
        (values_of (not (eqb positive_is_one 0)) bytes.now) }
{
    coded::status_code(eighths::values_of_bytes(bytes, positive_is_one != 0, values))
}

#[unsafe(no_mangle)]
pub extern "C" fn desklink_bytes_of_values_unguarded(
    values: &[f32],
    positive_is_one: u32,
    bytes: &mut [i8],
) -> i32
    ensures value { result ≡ coded_unit (judged (values_refusals values.now bytes.old) tt) }
    ensures bytes_after { bytes.new
        ≡ kept (values_refusals values.now bytes.old) bytes.old
        (bytes_of (not (eqb positive_is_one 0)) values.now) }
{
    coded::status_code(eighths::bytes_of_values(values, positive_is_one != 0, bytes))
}

// ---- words packed eight bits a byte

#[unsafe(no_mangle)]
pub extern "C" fn desklink_pack_bits(word: &[u8], bytes: &mut [u8]) -> i32
    ensures value { result ≡ coded_unit (judged (pack_refusals word.now bytes.old) tt) }
    ensures bytes_after { bytes.new
        ≡ kept (pack_refusals word.now bytes.old) bytes.old (packed_word word.now) }
{
    coded::status_code(packing::pack_bits(word, bytes))
}

#[unsafe(no_mangle)]
pub extern "C" fn desklink_unpack_bits(bytes: &[u8], word: &mut [u8]) -> i32
    ensures value { result ≡ coded_unit (judged (unpack_refusals bytes.now word.old) tt) }
    ensures word_after { word.new
        ≡ kept (unpack_refusals bytes.now word.old) word.old
        (unpacked_word (length word.old) bytes.now) }
{
    coded::status_code(packing::unpack_bits(bytes, word))
}
