//! Worked examples: what the definitions say of bytes that were decoded by hand.
//!
//! The functions do nothing. Their contracts are the examples, and hold by the definitions alone.
#![tactic(auto, unfolding(wire_messages::specs::serialize::reading::NameReading::name, wire_messages::specs::serialize::reading::NameReading::labels_from, wire_messages::specs::serialize::reading::NameReading::labels_within, wire_messages::specs::serialize::reading::RecordReading::question, wire_messages::specs::serialize::reading::RecordReading::resource, wire_messages::specs::serialize::reading::RecordReading::record_data, wire_messages::specs::serialize::reading::RecordReading::form, wire_messages::specs::serialize::reading::RecordReading::mx, wire_messages::specs::serialize::reading::RecordReading::soa, wire_messages::specs::serialize::reading::RecordReading::string, wire_messages::specs::serialize::reading::RecordReading::strings_until, wire_messages::specs::serialize::reading::RecordReading::strings_within, wire_messages::specs::serialize::reading::RecordReading::options_of, wire_messages::specs::serialize::reading::RecordReading::options_within, wire_messages::specs::serialize::reading::RecordReading::tsig, wire_messages::specs::serialize::reading::RecordReading::counted_octets, wire_messages::specs::serialize::reading::SectionReading::header, wire_messages::specs::serialize::reading::SectionReading::items, wire_messages::specs::serialize::reading::SectionReading::section_record, wire_messages::specs::serialize::reading::SectionReading::add_record, wire_messages::specs::serialize::reading::SectionReading::additionals_after, wire_reading::specs::serialize::reading::MessageReading::message))]

ghost use Rattle.std.specs.Prelude.{◌≡◌, ◌∷◌, [], ◌++◌, ℕ, codes, replicate, Err, None, Some};
ghost use Rattle.hickory_wire.specs.serialize.writing.Decoding.{IsDecodable, decoded_message};
ghost use Rattle.wire_names.specs.rr.domain.DomainName.{DomainName};
ghost use Rattle.wire_messages.specs.serialize.layout.HeaderLayout.{HeaderAt, header_octets};
ghost use Rattle.wire_reading.specs.serialize.layout.WholeMessage.{MessageAt};
ghost use Rattle.wire_reading.specs.serialize.reading.MessageReading.{message, Fault, Reads};
ghost use Rattle.wire_messages.specs.serialize.layout.NameLayout.{NameAt, NameFault};
ghost use Rattle.wire_messages.specs.serialize.reading.NameReading.{name};
ghost use Rattle.wire_messages.specs.serialize.layout.QuestionLayout.{QuestionAt};
ghost use Rattle.wire_messages.specs.serialize.layout.RecordLayout.{RecordAt};
ghost use Rattle.wire_messages.specs.serialize.reading.RecordReading.{resource};
ghost use Rattle.wire_messages.specs.serialize.writing.Reply.{opt_record, size_limit};
ghost use Rattle.wire_messages.specs.serialize.reading.SectionReading.{header, section_record, add_record, additionals_after, no_additionals};
ghost use Rattle.hickory_wire.specs.worked.Worked.{ReadsAs, MeetsFault, root, www_name, record_of, com_name, a_com_name, b_a_com_name};
ghost use Rattle.hickory_wire.specs.worked.Worked.{pointers_in_a_circle, pointer_to_itself, pointer_to_its_labels, pointer_ahead, pointer_to_later_name, pointer_into_header, name_from_header, reserved_code_01, reserved_code_10, longest_name_bytes, longest_name, longest_through_pointer, longest_name_through_pointer, too_long_name, too_long_through_pointer, label_missing, label_cut, end_missing, pointer_cut, names_by_pointers};
ghost use Rattle.hickory_wire.specs.worked.Worked.{a_record, address, a_record_of_five, a_record_cut, a_record_empty, aaaa_record, long_address, ns_record, cname_record_with_more, exchange, mx_record, soa_record, soa, txt_record, txt_record_with_more, null_record, unknown_record, opt_version_one, opt_malformed, opt_with_nsid, nsid, tsig_empty, tsig_zeros, zero_signature, tsig_bad_time, bad_time, signature_record, sig_empty};
ghost use Rattle.hickory_wire.specs.worked.Worked.{header_of_flags, with_counts, response, refused, authoritative, refused_update, truncated, status, recursion_available, authentic_data, checking_disabled, no_flags};
ghost use Rattle.hickory_wire.specs.worked.Worked.{saying, with_sig, opt_every_field, every_field, opt_record_at_root, opt_record_at_a, with_edns, with_signature, two_opts};
ghost use Rattle.hickory_wire.specs.worked.Worked.{www_query, www_question, asking, www_message, chaos_query, chaos_question, chaos_message, query_version_one, version_one_message, message_of_two_opts, bad_version, bad_version_message, empty_message};
ghost use Rattle.hickory_wire.specs.worked.WorkedLists.{additions_left_out, five_lists, five_lists_cut, five_lists_in_full, five_lists_truncated, five_lists_whole, formless_and_large};
ghost use Rattle.hickory_wire.specs.worked.WorkedPointers.{mail_reply, mail_bytes, large_reply, large_bytes, additional_alone};
ghost use Rattle.hickory_wire.specs.worked.WorkedReplies.{www_answer, www_answer_bytes, www_answer_again, first_owner, www_reply, www_reply_in_full, www_reply_compressed, www_reply_cut, serv_fail, one_answer, answer_left_out, opt_alone, signature_alone, dnssec_ok_reply, dnssec_ok_bytes, bad_version_reply, bad_version_bytes, signed_reply, signed_bytes, long_reply, one_of_three, long_reply_cut, hundred_answers, thirty_of_hundred, thirty_answers, formless_reply};
ghost use Rattle.wire_writing.specs.serialize.writing.Writing.{Written, Encoded, PutsRepeating, written_header, fallback_header};
ghost use Rattle.wire_names.specs.declared.error.DecodeError.TheVariants as decode_error;
ghost use Rattle.wire_messages.specs.declared.protocol.Protocol.TheVariants as protocol;
ghost use Rattle.wire_messages.specs.declared.rr.rdata.RData.TheVariants as rdata;

/// What names are read as.
pub fn worked_names()
    ensures www { ReadsAs name www_query 12 www_name 29 }
    ensures behind_two_pointers { ReadsAs name names_by_pointers 21 b_a_com_name 25 }
    ensures from_the_header { ReadsAs name pointer_into_header 12 name_from_header 14 }
    ensures longest { ReadsAs name longest_name_bytes 0 longest_name 255 }
    ensures longest_through_pointer { ReadsAs name longest_through_pointer 253 longest_name_through_pointer 257 }
{}

/// Which fault is met first where there is no name.
pub fn worked_name_faults()
    ensures circle { MeetsFault name pointers_in_a_circle 12 decode_error.PointerNotPriorToLabel }
    ensures to_itself { MeetsFault name pointer_to_itself 12 decode_error.PointerNotPriorToLabel }
    ensures to_its_labels { MeetsFault name pointer_to_its_labels 12 decode_error.PointerNotPriorToLabel }
    ensures ahead { MeetsFault name pointer_ahead 12 decode_error.PointerNotPriorToLabel }
    ensures to_later_name { MeetsFault name pointer_to_later_name 12 decode_error.PointerNotPriorToLabel }
    ensures code_01 { MeetsFault name reserved_code_01 0 decode_error.UnrecognizedLabelCode }
    ensures code_10 { MeetsFault name reserved_code_10 0 decode_error.UnrecognizedLabelCode }
    ensures too_long { MeetsFault name too_long_name 0 decode_error.NameTooLong }
    ensures too_long_through_pointer { MeetsFault name too_long_through_pointer 254 decode_error.NameTooLong }
    ensures no_byte { MeetsFault name [] 0 decode_error.InsufficientBytes }
    ensures label_missing { MeetsFault name label_missing 0 decode_error.InsufficientBytes }
    ensures label_cut { MeetsFault name label_cut 0 decode_error.InsufficientBytes }
    ensures end_missing { MeetsFault name end_missing 0 decode_error.InsufficientBytes }
    ensures pointer_cut { MeetsFault name pointer_cut 12 decode_error.InsufficientBytes }
{}

/// How names stand in bytes, and where there is none.
pub fn worked_name_layout()
    ensures www { NameAt 12 www_query 12 www_name 29 }
    ensures behind_two_pointers { NameAt 12 names_by_pointers 21 b_a_com_name 25 }
    ensures from_the_header { NameAt 0 pointer_into_header 12 name_from_header 14 }
    ensures not_outside_the_header { (name : DomainName) (next : ℕ) → ¬ NameAt 12 pointer_into_header 12 name next }
    ensures longest { NameAt 0 longest_name_bytes 0 longest_name 255 }
    ensures longest_through_pointer { NameAt 0 longest_through_pointer 253 longest_name_through_pointer 257 }
    ensures circle { NameFault pointers_in_a_circle 12 decode_error.PointerNotPriorToLabel }
    ensures to_itself { NameFault pointer_to_itself 12 decode_error.PointerNotPriorToLabel }
    ensures to_its_labels { NameFault pointer_to_its_labels 12 decode_error.PointerNotPriorToLabel }
    ensures ahead { NameFault pointer_ahead 12 decode_error.PointerNotPriorToLabel }
    ensures to_later_name { NameFault pointer_to_later_name 12 decode_error.PointerNotPriorToLabel }
    ensures not_to_later_name { (name : DomainName) (next : ℕ) → ¬ NameAt 0 pointer_to_later_name 12 name next }
    ensures code_01 { NameFault reserved_code_01 0 decode_error.UnrecognizedLabelCode }
    ensures code_10 { NameFault reserved_code_10 0 decode_error.UnrecognizedLabelCode }
    ensures too_long { NameFault too_long_name 0 decode_error.NameTooLong }
    ensures too_long_through_pointer { NameFault too_long_through_pointer 254 decode_error.NameTooLong }
    ensures no_byte { NameFault [] 0 decode_error.InsufficientBytes }
    ensures label_missing { NameFault label_missing 0 decode_error.InsufficientBytes }
    ensures label_cut { NameFault label_cut 0 decode_error.InsufficientBytes }
    ensures end_missing { NameFault end_missing 0 decode_error.InsufficientBytes }
    ensures pointer_cut { NameFault pointer_cut 12 decode_error.InsufficientBytes }
{}

/// What resource records are read as.
pub fn worked_records()
    ensures a { ReadsAs resource a_record 0 (record_of root 1 0 address) 15 }
    ensures a_empty { ReadsAs resource a_record_empty 0 (record_of root 255 0 (rdata.Update0 1)) 11 }
    ensures aaaa { ReadsAs resource aaaa_record 0 (record_of root 1 3600 long_address) 27 }
    ensures ns { ReadsAs resource ns_record 5 (record_of com_name 1 3600 (rdata.NS a_com_name)) 21 }
    ensures mx { ReadsAs resource mx_record 0 (record_of root 1 3600 exchange) 16 }
    ensures soa { ReadsAs resource soa_record 0 (record_of root 1 3600 soa) 38 }
    ensures txt { ReadsAs resource txt_record 0 (record_of root 1 0 (rdata.TXT (codes "ab" ∷ [] ∷ []))) 15 }
    ensures null { ReadsAs resource null_record 0 (record_of root 1 0 (rdata.NULL (0xff ∷ 0x00 ∷ []))) 13 }
    ensures unknown { ReadsAs resource unknown_record 0 (record_of root 1 0 (rdata.Unknown 65280 (0x2a ∷ []))) 12 }
    ensures opt { ReadsAs resource opt_version_one 0 (record_of root 1232 0x0001_0000 (rdata.OPT [])) 11 }
    ensures opt_malformed { ReadsAs resource opt_malformed 0 (record_of root 512 0 (rdata.OPT [])) 14 }
    ensures opt_with_nsid { ReadsAs resource opt_with_nsid 0 (record_of root 512 0 (rdata.OPT (nsid ∷ []))) 15 }
    ensures tsig_bad_time { ReadsAs resource tsig_bad_time 0 (record_of root 255 0 (rdata.TSIG bad_time)) 38 }
    ensures tsig { ReadsAs resource tsig_zeros 0 (record_of root 255 0 (rdata.TSIG zero_signature)) 28 }
{}

/// Which fault is met first where there is no resource record.
pub fn worked_record_faults()
    ensures a_of_five { MeetsFault resource a_record_of_five 0 decode_error.IncorrectDataLength }
    ensures a_cut { MeetsFault resource a_record_cut 0 decode_error.InsufficientBytes }
    ensures cname_with_more { MeetsFault resource cname_record_with_more 0 decode_error.IncorrectDataLength }
    ensures txt_with_more { MeetsFault resource txt_record_with_more 0 decode_error.IncorrectDataLength }
    ensures tsig_empty { MeetsFault resource tsig_empty 0 decode_error.IncorrectDataLength }
{}

/// How resource records stand in bytes.
pub fn worked_record_layout()
    ensures a { RecordAt a_record 0 (record_of root 1 0 address) 15 }
    ensures a_empty { RecordAt a_record_empty 0 (record_of root 255 0 (rdata.Update0 1)) 11 }
    ensures ns { RecordAt ns_record 5 (record_of com_name 1 3600 (rdata.NS a_com_name)) 21 }
    ensures soa { RecordAt soa_record 0 (record_of root 1 3600 soa) 38 }
    ensures txt { RecordAt txt_record 0 (record_of root 1 0 (rdata.TXT (codes "ab" ∷ [] ∷ []))) 15 }
    ensures opt_malformed { RecordAt opt_malformed 0 (record_of root 512 0 (rdata.OPT [])) 14 }
    ensures opt_with_nsid { RecordAt opt_with_nsid 0 (record_of root 512 0 (rdata.OPT (nsid ∷ []))) 15 }
    ensures tsig_bad_time { RecordAt tsig_bad_time 0 (record_of root 255 0 (rdata.TSIG bad_time)) 38 }
    ensures tsig { RecordAt tsig_zeros 0 (record_of root 255 0 (rdata.TSIG zero_signature)) 28 }
{}

/// What headers are read as.
pub fn worked_headers()
    ensures refused { ReadsAs header (header_of_flags 0x81 0x05) 0 refused 12 }
    ensures authoritative { ReadsAs header (header_of_flags 0x85 0x00) 0 authoritative 12 }
    ensures refused_update { ReadsAs header (header_of_flags 0xa8 0x05) 0 refused_update 12 }
    ensures truncated { ReadsAs header (header_of_flags 0x82 0x05) 0 truncated 12 }
    ensures status { ReadsAs header (header_of_flags 0x10 0x04) 0 status 12 }
    ensures recursion_available { ReadsAs header (header_of_flags 0x00 0x80) 0 recursion_available 12 }
    ensures authentic_data { ReadsAs header (header_of_flags 0x00 0x20) 0 authentic_data 12 }
    ensures checking_disabled { ReadsAs header (header_of_flags 0x00 0x10) 0 checking_disabled 12 }
    ensures unused_bit { ReadsAs header (header_of_flags 0x00 0x40) 0 no_flags 12 }
    ensures header_cut { MeetsFault header (replicate 11 0) 0 decode_error.InsufficientBytes }
{}

/// How headers are written.
pub fn worked_header_bytes()
    ensures refused { header_octets refused ≡ header_of_flags 0x81 0x05 }
    ensures authoritative { header_octets authoritative ≡ header_of_flags 0x85 0x00 }
    ensures refused_update { header_octets refused_update ≡ header_of_flags 0xa8 0x05 }
    ensures truncated { header_octets truncated ≡ header_of_flags 0x82 0x05 }
    ensures status { header_octets status ≡ header_of_flags 0x10 0x04 }
    ensures recursion_available { header_octets recursion_available ≡ header_of_flags 0x00 0x80 }
    ensures authentic_data { header_octets authentic_data ≡ header_of_flags 0x00 0x20 }
    ensures checking_disabled { header_octets checking_disabled ≡ header_of_flags 0x00 0x10 }
    ensures unused_bit { header_octets no_flags ≡ header_of_flags 0x00 0x00 }
    ensures low_code { header_octets (with_counts (response 0 16)) ≡ header_of_flags 0x80 0x00 }
{}

/// Which records a section may hold, and which fault is met first.
pub fn worked_sections()
    ensures a_among_answers { ReadsAs section_record a_record 0 (record_of root 1 0 address) 15 }
    ensures opt_among_answers { MeetsFault section_record opt_version_one 0 decode_error.RecordNotInAdditionals }
    ensures tsig_among_answers { MeetsFault section_record tsig_zeros 0 decode_error.RecordNotInAdditionals }
    ensures sig_among_answers { MeetsFault section_record sig_empty 0 decode_error.RecordNotInAdditionals }
    ensures sig { ReadsAs (additionals_after 1 no_additionals) sig_empty 0 with_sig 11 }
    ensures opt { ReadsAs (additionals_after 1 no_additionals) opt_version_one 0 (with_edns (saying 1232 0 1)) 11 }
    ensures every_field { ReadsAs (additionals_after 1 no_additionals) opt_every_field 0 (with_edns every_field) 15 }
    ensures opt_record { opt_record every_field ≡ record_of root 1232 0xff02_c001 (rdata.OPT (nsid ∷ [])) }
    ensures two_opts { MeetsFault (additionals_after 2 no_additionals) two_opts 0 decode_error.DuplicateEdns }
    ensures second_opt { add_record (with_edns (saying 1232 0 1)) opt_record_at_root ≡ Err decode_error.DuplicateEdns }
    ensures opt_below_root { add_record no_additionals opt_record_at_a ≡ Err decode_error.EdnsNameNotRoot }
    ensures second_opt_below_root { add_record (with_edns (saying 1232 0 1)) opt_record_at_a ≡ Err
        decode_error.EdnsNameNotRoot }
    ensures a_behind_tsig { add_record (with_signature signature_record)
        (record_of root 1 0 address) ≡ Err decode_error.RecordAfterSignature }
    ensures opt_behind_tsig { add_record (with_signature signature_record) opt_record_at_a ≡ Err
        decode_error.RecordAfterSignature }
    ensures two_tsigs { MeetsFault (additionals_after 2 no_additionals)
        (tsig_zeros ++ tsig_zeros) 0 decode_error.RecordAfterSignature }
{}

/// What messages are read as, and which fault is met first where there is none.
pub fn worked_messages()
    ensures www { ReadsAs message www_query 0 www_message 33 }
    ensures chaos { ReadsAs message chaos_query 0 chaos_message 17 }
    ensures version_one { ReadsAs message query_version_one 0 version_one_message 28 }
    ensures bad_version { ReadsAs message bad_version 0 bad_version_message 23 }
    ensures empty { ReadsAs message (replicate 12 0) 0 empty_message 12 }
    ensures bytes_behind { ReadsAs message (replicate 14 0) 0 empty_message 12 }
    ensures two_opts { Fault message_of_two_opts decode_error.DuplicateEdns }
    ensures header_cut { Fault (replicate 11 0) decode_error.InsufficientBytes }
    ensures circle { Fault pointers_in_a_circle decode_error.PointerNotPriorToLabel }
{}

/// How a message and its parts stand in bytes.
pub fn worked_message_layout()
    ensures message { MessageAt query_version_one version_one_message }
    ensures header { HeaderAt (header_of_flags 0xa8 0x05) refused_update }
    ensures question { QuestionAt 12 chaos_query 12 chaos_question 17 }
{}

/// As which bytes replies may be written under a limit.
pub fn worked_replies()
    ensures in_full { Written 512 www_reply www_reply_in_full one_answer }
    ensures compressed { Written 512 www_reply www_reply_compressed one_answer }
    ensures just_enough { Written 64 www_reply www_reply_in_full one_answer }
    ensures answer_left_out { Written 63 www_reply www_reply_cut answer_left_out }
    ensures not_left_out { ¬ Written 64 www_reply www_reply_cut answer_left_out }
    ensures question_alone { Written 33 www_reply www_reply_cut answer_left_out }
    ensures lists_cut_apart { Written 60 long_reply long_reply_cut one_of_three }
    ensures hundred_answers { Written 512 hundred_answers thirty_answers thirty_of_hundred }
    ensures dnssec_ok { Written 512 dnssec_ok_reply dnssec_ok_bytes opt_alone }
    ensures bad_version { Written 512 bad_version_reply bad_version_bytes opt_alone }
    ensures signed { Written 512 signed_reply signed_bytes signature_alone }
{}

/// Which bytes repeat an owner name: a pointer to where it stood, and not the name in full.
pub fn worked_owner_names()
    ensures repeated { PutsRepeating 512 (first_owner ∷ []) www_reply_compressed (www_answer ∷ [])
        (www_reply_compressed ++ www_answer_again) }
    ensures in_full_again { ¬ PutsRepeating 512 (first_owner ∷ []) www_reply_compressed (www_answer ∷ [])
        (www_reply_compressed ++ www_answer_bytes) }
    ensures in_full_first { PutsRepeating 512 [] www_reply_compressed (www_answer ∷ [])
        (www_reply_compressed ++ www_answer_bytes) }
{}

/// As which bytes replies may be written with a name in data that ends in a pointer, and behind a record that was left
/// out.
pub fn worked_pointers()
    ensures exchange { Written 512 mail_reply mail_bytes one_answer }
    ensures exchange_read { ReadsAs message mail_bytes 0 (decoded_message mail_reply [] one_answer) 44 }
    ensures behind_a_cut { Written 512 large_reply large_bytes additional_alone }
    ensures behind_a_cut_read { ReadsAs message large_bytes 0 (decoded_message large_reply [] additional_alone) 41 }
{}

/// As which bytes a reply with all five lists may be written within a limit: in full, and without OPT and TSIG.
pub fn worked_lists()
    ensures in_full { Written 123 five_lists_truncated five_lists_in_full five_lists_whole }
    ensures left_out { Written 84 five_lists five_lists_cut additions_left_out }
    ensures no_form_first { Encoded 20 formless_and_large serv_fail (fallback_header 0x1234) }
{}

/// As which bytes replies may be encoded within a limit, what their headers say, and which limits there are.
pub fn worked_encoding()
    ensures www { Encoded 512 www_reply www_reply_in_full (written_header www_reply one_answer) }
    ensures question_too_large { Encoded 32 www_reply serv_fail (fallback_header 0x1234) }
    ensures header_too_large { Encoded 11 www_reply serv_fail (fallback_header 0x1234) }
    ensures formless { Encoded 512 formless_reply serv_fail (fallback_header 0x1234) }
    ensures udp { size_limit protocol.Udp None ≡ 512 }
    ensures udp_edns { size_limit protocol.Udp (Some (saying 1232 0 0)) ≡ 1232 }
    ensures tcp { size_limit protocol.Tcp (Some (saying 1232 0 0)) ≡ 65535 }
{}

/// As which messages written replies are read.
pub fn worked_decoding()
    ensures www_decodable { IsDecodable www_reply (www_question ∷ []) }
    ensures bad_version_decodable { IsDecodable bad_version_reply [] }
    ensures reads { Reads www_reply_in_full (decoded_message www_reply (www_question ∷ []) one_answer) }
    ensures in_full { ReadsAs message www_reply_in_full 0 (decoded_message www_reply (www_question ∷ []) one_answer)
        64 }
    ensures compressed { ReadsAs message www_reply_compressed 0
        (decoded_message www_reply (www_question ∷ []) one_answer) 49 }
    ensures answer_left_out { ReadsAs message www_reply_cut 0
        (decoded_message www_reply (www_question ∷ []) answer_left_out) 33 }
    ensures lists_cut_apart { ReadsAs message long_reply_cut 0 (decoded_message long_reply [] one_of_three) 58 }
    ensures hundred_answers { ReadsAs message thirty_answers 0 (decoded_message hundred_answers [] thirty_of_hundred)
        507 }
    ensures dnssec_ok { ReadsAs message dnssec_ok_bytes 0 (decoded_message dnssec_ok_reply [] opt_alone) 23 }
    ensures bad_version { ReadsAs message bad_version_bytes 0 (decoded_message bad_version_reply [] opt_alone) 23 }
    ensures signed { ReadsAs message signed_bytes 0 (decoded_message signed_reply [] signature_alone) 40 }
    ensures serv_fail { ReadsAs message serv_fail 0 (asking (response 0 2) [] None) 12 }
{}
