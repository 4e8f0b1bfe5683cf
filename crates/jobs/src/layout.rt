// Where things stand in the words.
//
// `home` and `live` are lent as two slices of words, by a rule of the project, and each function asks how long they are. A struct that
// lends both was tried: what its lender holds afterwards is known only by a clause on each borrow's name in each function, so it is no plainer.
// Nor is a type for a row's number: each caller would make one of a number that its loop bounds already.
//
// home, 68,104 words: 0 the last task number given, 1 to 3 how many rows of jobs, machines and tasks are in use, 4 to 7 free;
// then 256 rows of jobs (26 words), 256 of machines (24), 2,048 of tasks (27).
//   job      0 version (0: a hole; a version 0 is written as 2^32)  1 to 13 spec  14 to 22 name  23 count  24 least  25 most
//   machine  0 flag (0: a hole)  1 number  2 cpu  3 memory  4 open  5 life  6 last report  7 how many tags  8 to 23 tags
//   task     0 number (0: a hole)  1 phase  2 machine  3 life  4 version  5 to 17 spec  18 to 26 name
//   spec     0 image  1 cpu  2 memory  3 apart  4 how many tags  5 to 12 tags
//   name     0 length  1 to 8 bytes, eight to a word
// live, 2,304 words: when each machine was heard (256), which tasks are ready (2,048).
//
// Budget: of 262,144 kept words two copies of home and one word more take 136,209, so a copy may grow by 62,967.
// Eight named wants of two words, a rank, a cellar and a batch are 19 words for each of 2,048 tasks and 256 jobs: 43,776;
// eight named amounts of two words for each machine: 4,096; 4,096 changes of three words: 12,288. Together 60,160.
ghost use Rattle.jobs.specs.Layout.{TwiceFits, RoomToGrow};

pub const LAST_ID: usize = 0;

pub const JOB_ROWS: usize = 1;

pub const MACHINE_ROWS: usize = 2;

pub const TASK_ROWS: usize = 3;

pub const JOB_BASE: usize = 8;

pub const JOB_WIDTH: usize = 26;

pub const MACHINE_BASE: usize = 6664;

pub const MACHINE_WIDTH: usize = 24;

pub const TASK_BASE: usize = 12808;

pub const TASK_WIDTH: usize = 27;

pub const HOME_WORDS: usize = 68104;

pub const MAX_JOBS: usize = 256;

pub const MAX_MACHINES: usize = 256;

pub const MAX_TASKS: usize = 2048;

pub const READY_BASE: usize = 256;

pub const LIVE_WORDS: usize = 2304;

// How many words `home` has. Twice that fits into the kept words, and with room for what comes later.
pub fn home_words() -> usize
    ensures twice { TwiceFits }
    ensures later { RoomToGrow }
{
    HOME_WORDS
}
