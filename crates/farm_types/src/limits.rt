//! The limits: each number that words, commands, rows, farms, requests and files are held to, once,
//! as the code tests it. `specs/Limits` has the same numbers for the definitions; the law
//! `limits_agree` says that they are equal, so a limit is changed in both or in neither.
ghost use Rattle.std.specs.Prelude.{◌≡◌, [], ◌∷◌};
ghost use Rattle.farm_types.specs.Limits.{longest_name, longest_key, longest_tag_key};
ghost use Rattle.farm_types.specs.Limits.{longest_tag_value, most_tags, longest_text};
ghost use Rattle.farm_types.specs.Limits.{highest_priority, longest_every, most_wants, last_kind};
ghost use Rattle.farm_types.specs.Limits.{most_types, most_boards, most_boards_of_type, most_jobs};
ghost use Rattle.farm_types.specs.Limits.{most_reservations, most_replies, last_moment};
ghost use Rattle.farm_types.specs.Limits.{most_commands, numbers_end, most_jobs_since, lease};
ghost use Rattle.farm_types.specs.Limits.{longest_head, most_fields, longest_body, most_reads};
ghost use Rattle.farm_types.specs.Limits.{longest_job_file, longest_lab_file};

/// The most bytes of a name.
pub const LONGEST_NAME: usize = 48;
/// The most bytes of a key under which a reply is kept.
pub const LONGEST_KEY: usize = 64;
/// The most bytes of a tag's key.
pub const LONGEST_TAG_KEY: usize = 32;
/// The most bytes of a tag's value.
pub const LONGEST_TAG_VALUE: usize = 64;
/// The most tags of a board or a want.
pub const MOST_TAGS: usize = 16;
/// The most bytes of the text that a job carries.
pub const LONGEST_TEXT: usize = 65_536;

/// The highest priority.
pub const HIGHEST_PRIORITY: u64 = 100;
/// The longest time between two checks of a board, in hours or in jobs.
pub const LONGEST_EVERY: u64 = 10_000;
/// The most wants of a submission, so the most members of a group.
pub const MOST_WANTS: usize = 4;
/// The highest number of a command, as kept replies name it.
pub const LAST_KIND: u64 = 14;

/// The most device types.
pub const MOST_TYPES: usize = 64;
/// The most boards.
pub const MOST_BOARDS: usize = 256;
/// The most boards of one type.
pub const MOST_BOARDS_OF_TYPE: usize = 64;
/// The most job rows, finished ones too.
pub const MOST_JOBS: usize = 100_000;
/// The most reservation rows, ended ones too.
pub const MOST_RESERVATIONS: usize = 100_000;
/// The most kept replies.
pub const MOST_REPLIES: usize = 300_000;
/// The last moment that the desk knows, in seconds since 1970.
pub const LAST_MOMENT: u64 = 250_000_000_000;
/// The most accepted commands.
pub const MOST_COMMANDS: u64 = 9_000_000_000_000_000_000;
/// The end of the numbers of jobs and reservations, which are below it.
pub const NUMBERS_END: u64 = 1_000_000_000;
/// Up to where the jobs since a board's last check are counted.
pub const MOST_JOBS_SINCE: u64 = 1_000_000;
/// How long a reservation lives without a refresh, in seconds.
pub const LEASE: u64 = 60;

/// The longest head of a request, in bytes.
pub const LONGEST_HEAD: usize = 8_192;
/// The most fields in a head.
pub const MOST_FIELDS: usize = 64;
/// The longest body of a request, in bytes.
pub const LONGEST_BODY: usize = 65_536;
/// The most calls of `read` for one request, interrupted ones too. With one byte a call the longest
/// request takes 73,728.
pub const MOST_READS: u32 = 80_000;
/// The longest job file, in bytes.
pub const LONGEST_JOB_FILE: usize = 65_536;
/// The longest lab file, in bytes.
pub const LONGEST_LAB_FILE: usize = 1_048_576;

/// The limits that the code tests are those of the definitions.
pub fn limits_agree()
    ensures { LONGEST_NAME ∷ LONGEST_KEY ∷ LONGEST_TAG_KEY ∷ LONGEST_TAG_VALUE ∷ MOST_TAGS
        ∷ LONGEST_TEXT ∷ HIGHEST_PRIORITY ∷ LONGEST_EVERY ∷ MOST_WANTS ∷ LAST_KIND ∷ MOST_TYPES
        ∷ MOST_BOARDS ∷ MOST_BOARDS_OF_TYPE ∷ MOST_JOBS ∷ MOST_RESERVATIONS ∷ MOST_REPLIES
        ∷ LAST_MOMENT ∷ MOST_COMMANDS ∷ NUMBERS_END ∷ MOST_JOBS_SINCE ∷ LEASE ∷ LONGEST_HEAD
        ∷ MOST_FIELDS ∷ LONGEST_BODY ∷ MOST_READS ∷ LONGEST_JOB_FILE ∷ LONGEST_LAB_FILE ∷ []
        ≡ longest_name ∷ longest_key ∷ longest_tag_key ∷ longest_tag_value ∷ most_tags
        ∷ longest_text ∷ highest_priority ∷ longest_every ∷ most_wants ∷ last_kind ∷ most_types
        ∷ most_boards ∷ most_boards_of_type ∷ most_jobs ∷ most_reservations ∷ most_replies
        ∷ last_moment ∷ most_commands ∷ numbers_end ∷ most_jobs_since ∷ lease ∷ longest_head
        ∷ most_fields ∷ longest_body ∷ most_reads ∷ longest_job_file ∷ longest_lab_file ∷ [] }
{}
