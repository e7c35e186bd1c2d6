//! Worked examples: what the definitions say of zones that were written out by hand.
//!
//! The functions do nothing. Their contracts are the examples.

ghost use Rattle.std.specs.Prelude.{◌≡◌, ◌∷◌, [], None, Some, codes, false, true};
ghost use Rattle.hickory_wire.specs.worked.Worked.{named, root};
ghost use Rattle.wire_messages.specs.Numbers.{code_no_error, code_nx_domain, code_refused, code_yx_domain, type_a, type_any, type_cname, type_dname, type_ds, type_mx, type_ns, type_srv, type_txt};
ghost use Rattle.wire_messages.specs.declared.rr.rdata.RData.TheVariants as rdata;
ghost use Rattle.zone_answers.specs.Chains.{Chases};
ghost use Rattle.zone_answers.specs.Endings as ended;
ghost use Rattle.zone_answers.specs.Additionals.{host_in};
ghost use Rattle.zone_answers.specs.WorkedZones.{address, any_name, away, child, cuts, deep, example, first_alias, foo_bar, ghost_any, grandchild, host1, host3, host_subdel, into_child, itself_alias, mail, nobody, ns_child, owned, ping, pong, second_alias, server, service, sub_any, subdel, tcp_host1, telnet_host1, text, to_child, to_nobody, to_text, wildcards};
ghost use Rattle.zone_replies.specs.Handled.{question};
ghost use Rattle.zone_replies.specs.Replies.{RepliesTo, whole};
ghost use Rattle.zone_replies.specs.WorkedReplies.{chaos, denying_soa, loud_host3, loud_new, loud_old, net, of_any_class, priming, root_mail, root_server, root_service};
ghost use Rattle.zone_answers.specs.Redirections.{is_too_long, substitute, target_in};
ghost use Rattle.zone_answers.specs.WorkedRedirections.{Makes, MakesNothing, a_self, back_new, back_old, below_long, cut_old, far, home_sub, long, low, made, moved, new_home, nobody_new, nobody_old, old_home, redirecting, redirecting_apex, self, sub, to_far, to_new_home, to_self, www_low, www_new, www_old, www_sub};
ghost use Rattle.zone_answers.specs.Zones.{Answers, answer, no_data, no_name, redirection, referral, wild_answer};

/// What is synthesized in the zone of RFC 4592 section 2.2.1, as it says there.
pub fn worked_syntheses()
    ensures host3_mx { Answers wildcards host3 type_mx (wild_answer (owned any_name mail ∷ [])) }
    ensures host3_a { Answers wildcards host3 type_a no_data }
    ensures foo_bar_txt { Answers wildcards foo_bar type_txt (wild_answer (owned any_name text ∷ [])) }
    ensures host3_any { Answers wildcards host3 type_any
        (wild_answer (owned any_name mail ∷ owned any_name text ∷ [])) }
{}

/// What is not synthesized there, since a name exists, without records of its own too, or the zone is cut.
pub fn worked_names_without_synthesis()
    ensures host1_mx { Answers wildcards host1 type_mx no_data }
    ensures sub_any_mx { Answers wildcards sub_any type_mx no_data }
    ensures telnet_host1_srv { Answers wildcards telnet_host1 type_srv no_name }
    ensures host_subdel_a { Answers wildcards host_subdel type_a (referral (owned subdel (rdata.NS server) ∷ [])) }
    ensures ghost_any_mx { Answers wildcards ghost_any type_mx no_name }
    ensures tcp_host1_srv { Answers wildcards tcp_host1 type_srv no_data }
    ensures tcp_host1_any { Answers wildcards tcp_host1 type_any no_data }
    ensures any_name_mx { Answers wildcards any_name type_mx (answer (owned any_name mail ∷ [])) }
{}

/// Where a zone ends: at the higher of two cuts, whose glue it has no authority for; but DS records stand at the cut.
pub fn worked_cuts()
    ensures at_cut { Answers cuts child type_a (referral (owned child (rdata.NS ns_child) ∷ [])) }
    ensures servers_at_cut { Answers cuts child type_ns (referral (owned child (rdata.NS ns_child) ∷ [])) }
    ensures any_at_cut { Answers cuts child type_any (referral (owned child (rdata.NS ns_child) ∷ [])) }
    ensures ds_at_cut { Answers cuts child type_ds no_data }
    ensures glue { Answers cuts ns_child type_a (referral (owned child (rdata.NS ns_child) ∷ [])) }
    ensures lower_cut { Answers cuts grandchild type_ns (referral (owned child (rdata.NS ns_child) ∷ [])) }
    ensures ds_at_lower_cut { Answers cuts grandchild type_ds (referral (owned child (rdata.NS ns_child) ∷ [])) }
    ensures below_both { Answers cuts deep type_a (referral (owned child (rdata.NS ns_child) ∷ [])) }
    ensures servers_at_apex { Answers cuts example type_ns (answer (owned example (rdata.NS server) ∷ [])) }
    ensures ds_at_apex { Answers cuts example type_ds no_data }
{}

/// Which hosts data name, read from the octets of an SRV record.
pub fn worked_hosts()
    ensures mail { host_in mail ≡ Some host1 }
    ensures service { host_in service ≡ Some host1 }
    ensures service_cut { host_in (rdata.Unknown type_srv (0 ∷ 0 ∷ [])) ≡ None }
{}

/// How chains of aliases end.
pub fn worked_chains()
    ensures at_records { Chases cuts type_txt 8 [] first_alias
        (owned first_alias (rdata.CNAME second_alias) ∷ owned second_alias (rdata.CNAME to_text) ∷ owned to_text text ∷
        []) ended.answer }
    ensures at_alias { Chases cuts type_cname 8 [] first_alias (owned first_alias (rdata.CNAME second_alias) ∷ [])
        ended.answer }
    ensures at_no_data { Chases cuts type_a 8 [] second_alias (owned second_alias (rdata.CNAME to_text) ∷ [])
        ended.no_data }
    ensures at_nobody { Chases cuts type_a 8 [] to_nobody (owned to_nobody (rdata.CNAME nobody) ∷ []) ended.no_name }
    ensures at_cut { Chases cuts type_a 8 [] into_child (owned into_child (rdata.CNAME to_child) ∷ [])
        (ended.referral (owned child (rdata.NS ns_child) ∷ [])) }
    ensures outside { Chases cuts type_a 8 [] away (owned away (rdata.CNAME server) ∷ []) ended.left_open }
    ensures at_itself { Chases cuts type_a 8 [] itself_alias (owned itself_alias (rdata.CNAME itself_alias) ∷ [])
        ended.left_open }
    ensures in_a_circle { Chases cuts type_a 8 [] ping
        (owned ping (rdata.CNAME pong) ∷ owned pong (rdata.CNAME ping) ∷ []) ended.left_open }
    ensures after_the_last { Chases cuts type_txt 1 [] first_alias
        (owned first_alias (rdata.CNAME second_alias) ∷ owned second_alias (rdata.CNAME to_text) ∷ []) ended.left_open }
{}

/// What a DNAME redirects: all that is below its owner, whatever lies there, and not the owner; and nothing at a cut or
/// below it.
pub fn worked_redirections()
    ensures owner { Answers redirecting old_home type_a (answer (owned old_home (address 1) ∷ [])) }
    ensures owner_asked_for_it { Answers redirecting old_home type_dname (answer (moved ∷ [])) }
    ensures owner_without_alias { Answers redirecting old_home type_cname no_data }
    ensures below { Answers redirecting www_old type_a (redirection 1 (moved ∷ [])) }
    ensures dname_below { Answers redirecting low type_dname (redirection 1 (moved ∷ [])) }
    ensures below_dname_below { Answers redirecting www_low type_a (redirection 2 (moved ∷ [])) }
    ensures cut_below { Answers redirecting cut_old type_ns (redirection 1 (moved ∷ [])) }
    ensures below_cut { Answers redirecting www_sub type_a (referral (owned sub (rdata.NS server) ∷ [])) }
    ensures apex { Answers redirecting_apex example type_ns (answer (owned example (rdata.NS server) ∷ [])) }
    ensures below_apex { Answers redirecting_apex new_home type_a (redirection 1 (owned example to_new_home ∷ [])) }
{}

/// The targets that data of a DNAME give, and how long a name may be that it makes.
pub fn worked_targets()
    ensures whole { target_in to_new_home ≡ Some new_home }
    ensures more { target_in (rdata.Unknown type_dname (1 ∷ 116 ∷ 0 ∷ 0 ∷ [])) ≡ None }
    ensures less { target_in (rdata.Unknown type_dname (1 ∷ 116 ∷ [])) ≡ None }
    ensures longest { is_too_long (substitute below_long 3 (far 53)) ≡ false }
    ensures too_long { is_too_long (substitute below_long 3 (far 54)) ≡ true }
{}

/// The table of RFC 6672 section 2.2, row by row.
pub fn worked_substitutions()
    ensures above { MakesNothing (named (codes "com" ∷ [])) (named (codes "example" ∷ codes "com" ∷ [])) }
    ensures at_owner { MakesNothing (named (codes "example" ∷ codes "com" ∷ []))
        (named (codes "example" ∷ codes "com" ∷ [])) }
    ensures one_label { Makes (named (codes "a" ∷ codes "example" ∷ codes "com" ∷ []))
        (named (codes "example" ∷ codes "com" ∷ [])) (named (codes "example" ∷ codes "net" ∷ []))
        (named (codes "a" ∷ codes "example" ∷ codes "net" ∷ [])) }
    ensures two_labels { Makes (named (codes "a" ∷ codes "b" ∷ codes "example" ∷ codes "com" ∷ []))
        (named (codes "example" ∷ codes "com" ∷ [])) (named (codes "example" ∷ codes "net" ∷ []))
        (named (codes "a" ∷ codes "b" ∷ codes "example" ∷ codes "net" ∷ [])) }
    ensures part_of_a_label { MakesNothing (named (codes "ab" ∷ codes "example" ∷ codes "com" ∷ []))
        (named (codes "b" ∷ codes "example" ∷ codes "com" ∷ [])) }
    ensures other_label { Makes (named (codes "foo" ∷ codes "example" ∷ codes "com" ∷ []))
        (named (codes "example" ∷ codes "com" ∷ [])) (named (codes "example" ∷ codes "net" ∷ []))
        (named (codes "foo" ∷ codes "example" ∷ codes "net" ∷ [])) }
    ensures longer_owner { Makes (named (codes "a" ∷ codes "x" ∷ codes "example" ∷ codes "com" ∷ []))
        (named (codes "x" ∷ codes "example" ∷ codes "com" ∷ [])) (named (codes "example" ∷ codes "net" ∷ []))
        (named (codes "a" ∷ codes "example" ∷ codes "net" ∷ [])) }
    ensures longer_target { Makes (named (codes "a" ∷ codes "example" ∷ codes "com" ∷ []))
        (named (codes "example" ∷ codes "com" ∷ [])) (named (codes "y" ∷ codes "example" ∷ codes "net" ∷ []))
        (named (codes "a" ∷ codes "y" ∷ codes "example" ∷ codes "net" ∷ [])) }
    ensures to_itself { Makes (named (codes "cyc" ∷ codes "example" ∷ codes "com" ∷ []))
        (named (codes "example" ∷ codes "com" ∷ [])) (named (codes "example" ∷ codes "com" ∷ []))
        (named (codes "cyc" ∷ codes "example" ∷ codes "com" ∷ [])) }
    ensures below_itself { Makes (named (codes "cyc" ∷ codes "example" ∷ codes "com" ∷ []))
        (named (codes "example" ∷ codes "com" ∷ [])) (named (codes "c" ∷ codes "example" ∷ codes "com" ∷ []))
        (named (codes "cyc" ∷ codes "c" ∷ codes "example" ∷ codes "com" ∷ [])) }
    ensures to_root { Makes (named (codes "shortloop" ∷ codes "x" ∷ codes "x" ∷ [])) (named (codes "x" ∷ [])) root
        (named (codes "shortloop" ∷ codes "x" ∷ [])) }
    ensures to_root_again { Makes (named (codes "shortloop" ∷ codes "x" ∷ [])) (named (codes "x" ∷ [])) root
        (named (codes "shortloop" ∷ [])) }
{}

/// How chains over a DNAME go: the DNAME once, the CNAME that it makes of its TTL, and on from there; but not where
/// CNAME is asked for.
pub fn worked_redirected_chains()
    ensures at_records { Chases redirecting type_a 8 [] www_old
        (moved ∷ made www_old www_new ∷ owned www_new (address 2) ∷ []) ended.answer }
    ensures asked_for_alias { Chases redirecting type_cname 8 [] www_old (moved ∷ made www_old www_new ∷ [])
        ended.answer }
    ensures asked_for_all { Chases redirecting type_any 8 [] www_old
        (moved ∷ made www_old www_new ∷ owned www_new (address 2) ∷ []) ended.answer }
    ensures twice { Chases redirecting type_a 8 [] back_old
        (moved ∷ made back_old back_new ∷ owned back_new (rdata.CNAME www_old) ∷ made www_old www_new ∷ owned www_new
        (address 2) ∷ []) ended.answer }
    ensures at_nobody { Chases redirecting type_a 8 [] nobody_old (moved ∷ made nobody_old nobody_new ∷ [])
        ended.no_name }
    ensures at_itself { Chases redirecting type_a 8 [] a_self
        (owned self to_self ∷ owned a_self (rdata.CNAME a_self) ∷ []) ended.left_open }
    ensures name_too_long { Chases redirecting type_a 8 [] below_long (owned long to_far ∷ []) ended.name_too_long }
{}

/// Whole replies: of a referral the servers and their glue, and AA behind an alias alone; of a denial the code of the
/// chain's last name and the SOA, to be kept as long as its MINIMUM says; to a question that is not of the zone neither
/// AA nor records; to a question of any class no AA.
pub fn worked_replies()
    ensures answer_with_address { RepliesTo wildcards (question host3 type_mx)
        (whole code_no_error true (owned host3 mail ∷ []) [] (owned host1 (address 1) ∷ [])) }
    ensures servers_at_cut { RepliesTo cuts (question child type_ns)
        (whole code_no_error false [] (owned child (rdata.NS ns_child) ∷ []) (owned ns_child (address 53) ∷ [])) }
    ensures cut_behind_alias { RepliesTo cuts (question into_child type_a)
        (whole code_no_error true (owned into_child (rdata.CNAME to_child) ∷ []) (owned child (rdata.NS ns_child) ∷ [])
        (owned ns_child (address 53) ∷ [])) }
    ensures spelled_as_asked { RepliesTo wildcards (question loud_host3 type_txt)
        (whole code_no_error true (owned loud_host3 text ∷ []) [] []) }
    ensures made_as_asked { RepliesTo redirecting (question loud_old type_cname)
        (whole code_no_error true (moved ∷ made loud_old loud_new ∷ []) [] []) }
    ensures no_data { RepliesTo cuts (question to_text type_a) (whole code_no_error true [] (denying_soa ∷ []) []) }
    ensures nobody { RepliesTo cuts (question nobody type_a) (whole code_nx_domain true [] (denying_soa ∷ []) []) }
    ensures nobody_behind_alias { RepliesTo cuts (question to_nobody type_a)
        (whole code_nx_domain true (owned to_nobody (rdata.CNAME nobody) ∷ []) (denying_soa ∷ []) []) }
    ensures name_too_long { RepliesTo redirecting (question below_long type_a)
        (whole code_yx_domain true (owned long to_far ∷ []) [] []) }
    ensures outside { RepliesTo cuts (question server type_a) (whole code_refused false [] [] []) }
    ensures other_class { RepliesTo cuts chaos (whole code_refused false [] [] []) }
    ensures any_class { RepliesTo cuts of_any_class (whole code_no_error false [] (denying_soa ∷ []) []) }
{}

/// The glue that is added to an answer: the addresses of servers, as a priming query needs them (RFC 9609 section 4.1),
/// of a mail host at a cut, and of the host of a service.
pub fn worked_glue()
    ensures servers { RepliesTo priming (question root type_ns)
        (whole code_no_error true (owned root (rdata.NS root_server) ∷ []) [] (owned root_server (address 4) ∷ [])) }
    ensures mail_host { RepliesTo priming (question root type_mx)
        (whole code_no_error true (owned root root_mail ∷ []) [] (owned net (address 5) ∷ [])) }
    ensures service { RepliesTo priming (question root type_srv)
        (whole code_no_error true (owned root root_service ∷ []) [] (owned net (address 5) ∷ [])) }
{}
