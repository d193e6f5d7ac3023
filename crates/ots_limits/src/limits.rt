//! The laws.
ghost use Rattle.std.specs.Prelude.{◌≡◌, pos};
ghost use Rattle.ots_address.specs.declared.limits.TheConstants.{DEFAULT_PORT, MAX_CALENDARS, MAX_HOST};
ghost use Rattle.ots_base.specs.declared.limits.TheConstants.{MAX_ARGUMENT, MAX_HEADER_FILE, MAX_HEXLIFIED};
ghost use Rattle.ots_base.specs.declared.limits.TheConstants.{MAX_MESSAGE};
ghost use Rattle.ots_base.specs.declared.limits.TheConstants.{MAX_OPERATIONS, MAX_PAYLOAD, MAX_PROOF_FILE};
ghost use Rattle.ots_base.specs.declared.limits.TheConstants.{MAX_REPLY_BODY, MAX_TARGET_FILE, MAX_URI};
ghost use Rattle.ots_block.specs.declared.limits.TheConstants.{MAX_COMPACT};
ghost use Rattle.ots_calendar_inputs.specs.declared.lines.TheConstants.{MAX_LINE, MAX_LINES};
ghost use Rattle.ots_chain.specs.declared.pins.TheConstants.{MAX_PINS};
ghost use Rattle.ots_client_words.specs.declared.limits.TheConstants.{MAX_HEIGHT, MAX_PATHS, MAX_STAMPED, MAX_WANTED};
ghost use Rattle.ots_gateway_words.specs.declared.limits.TheConstants as gateway;
ghost use Rattle.ots_http.specs.declared.limits.TheConstants.{MAX_FIELDS, MAX_HEAD, MAX_RECORD};
ghost use Rattle.ots_journal.specs.declared.limits.TheConstants.{EMPTY_JOURNAL, MAX_ENTRY_PAYLOAD, MAX_GROUP};
ghost use Rattle.ots_journal.specs.declared.limits.TheConstants.{MAX_JOURNAL, MIN_ENTRY_PAYLOAD};
ghost use Rattle.ots_outside.specs.declared.small_bytes.TheConstants.{MAX_DIGEST};
ghost use Rattle.ots_real.specs.declared.conversation.TheConstants.{CONNECT_SECONDS, CONVERSATION_SECONDS};
ghost use Rattle.ots_real.specs.declared.conversation.TheConstants.{DRAIN_BYTES, DRAIN_SECONDS, LISTEN_QUEUE, MAX_HELD};
ghost use Rattle.ots_real.specs.declared.conversation.TheConstants.{ROUND_CONVERSATION_SECONDS};
ghost use Rattle.ots_real.specs.declared.conversation.TheConstants.{REPLY_SECONDS, REQUEST_SECONDS, WAIT_SECONDS};
ghost use Rattle.ots_reader.specs.declared.token_reader.TheConstants.{TOKEN_READER_BYTES};
ghost use Rattle.ots_round.specs.declared.hmac.TheConstants.{MAX_KEY};
ghost use Rattle.ots_round.specs.declared.round.TheConstants.{COMMITMENT};
ghost use Rattle.ots_shared.specs.declared.limits.TheConstants.{MAX_CALLERS};
ghost use Rattle.ots_store.specs.declared.form.TheConstants.{TIP_PAYLOAD};
ghost use Rattle.ots_store.specs.declared.page.TheConstants.{MAX_PAGE_ENTRIES};
ghost use Rattle.ots_tickets.specs.declared.tickets.TheConstants.{MAX_WAITING};
ghost use Rattle.ots_verifier.specs.declared.verifier.TheConstants.{VERIFIER_BYTES};
ghost use Rattle.ots_workers.specs.declared.limits.TheConstants.{MAX_WORKERS};

/// Of proof files, and of what they are checked by.
pub fn limits_of_proofs()
    ensures message { MAX_MESSAGE ≡ 4096 }
    ensures argument { MAX_ARGUMENT ≡ 4096 }
    ensures hexlified { MAX_HEXLIFIED ≡ 2048 }
    ensures operations { MAX_OPERATIONS ≡ 255 }
    ensures payload { MAX_PAYLOAD ≡ 8192 }
    ensures uri { MAX_URI ≡ 1000 }
    ensures proof_file { MAX_PROOF_FILE ≡ 4194304 }
    ensures header_file { MAX_HEADER_FILE ≡ 83886080 }
    ensures target_file { MAX_TARGET_FILE ≡ 1099511627776 }
    ensures compact { MAX_COMPACT ≡ 4194304 }
    ensures pins { MAX_PINS ≡ 1024 }
    ensures digest { MAX_DIGEST ≡ 64 }
{}

/// Of the memory that a proof is verified in.
pub fn limits_of_memory()
    ensures verifier { VERIFIER_BYTES ≡ 1059468 }
    ensures token_reader { TOKEN_READER_BYTES ≡ 10315 }
{}

/// Of the words of `ots`.
pub fn limits_of_commands()
    ensures stamped { MAX_STAMPED ≡ 1024 }
    ensures wanted { MAX_WANTED ≡ 16 }
    ensures paths { MAX_PATHS ≡ 100000 }
    ensures height { MAX_HEIGHT ≡ 9223372036854775807 }
{}

/// Of addresses, requests, replies and conversations.
pub fn limits_of_conversations()
    ensures calendars { MAX_CALENDARS ≡ 16 }
    ensures host { MAX_HOST ≡ 253 }
    ensures port { DEFAULT_PORT ≡ 80 }
    ensures head { MAX_HEAD ≡ 8192 }
    ensures fields { MAX_FIELDS ≡ 64 }
    ensures record { MAX_RECORD ≡ 9223372036854775807 }
    ensures reply_body { MAX_REPLY_BODY ≡ 10000 }
    ensures trees { gateway.MAX_TREES ≡ 16 }
    ensures round { gateway.MAX_ROUND ≡ 1024 }
    ensures links { gateway.MAX_ACCEPT ≡ 4294967295 }
    ensures gateway_port { gateway.MAX_PORT ≡ 65535 }
{}

/// Of the time, in seconds, that a peer is waited for, and of how many wait.
pub fn limits_of_time()
    ensures request { REQUEST_SECONDS ≡ 10 }
    ensures reply { REPLY_SECONDS ≡ 10 }
    ensures connect { CONNECT_SECONDS ≡ 10 }
    ensures conversation { CONVERSATION_SECONDS ≡ 60 }
    ensures round { ROUND_CONVERSATION_SECONDS ≡ 20 }
    ensures wait { WAIT_SECONDS ≡ 1 }
    ensures drain { DRAIN_SECONDS ≡ 1 }
    ensures drained { DRAIN_BYTES ≡ 8192 }
    ensures held { MAX_HELD ≡ 16384 }
    ensures queue { LISTEN_QUEUE ≡ pos 4096 }
{}

/// Of journals and their records.
pub fn limits_of_journals()
    ensures empty { EMPTY_JOURNAL ≡ 9 }
    ensures journal { MAX_JOURNAL ≡ 1073741824 }
    ensures group { MAX_GROUP ≡ 1024 }
    ensures least_entry { MIN_ENTRY_PAYLOAD ≡ 44 }
    ensures most_entry { MAX_ENTRY_PAYLOAD ≡ 1048576 }
    ensures commitment { COMMITMENT ≡ 44 }
    ensures tip { TIP_PAYLOAD ≡ 48 }
    ensures page { MAX_PAGE_ENTRIES ≡ 128 }
{}

/// Of a calendar.
pub fn limits_of_calendars()
    ensures key { MAX_KEY ≡ 64 }
    ensures waiting { MAX_WAITING ≡ 65536 }
    ensures lines { MAX_LINES ≡ 65536 }
    ensures line { MAX_LINE ≡ 129 }
    ensures workers { MAX_WORKERS ≡ 64 }
    ensures callers { MAX_CALLERS ≡ 65 }
{}
