//! Normalises linear and mixed-integer model files: the program that does the jobs of `mpslp_convert`.
#![tactic(auto)]

mod inputs;

use inputs::perform_on_inputs;
use mpslp_convert::{Job, JobFault, Word, job};
use mpslp_model::{FIXED_SEED, HashSeed, ToWrite};
use std::io::ErrorKind;
use std::process::ExitCode;
use std::random::RandomSource;
use std::rt::Env;
use std::{env, io};

/// The job that the command line requests.
fn requested_job<R: Env + AllocGlobal>(rt: &R) -> Result<Job, JobFault> {
    match env::args(rt) {
        Ok(words) => match words.skip(1).collect::<Vec<String>>(rt.alloc()) {
            Ok(words) => job(rt.alloc(), &words),
            Err(_) => Err(JobFault::OutOfMemory),
        },
        Err(error) if error.kind() == ErrorKind::OutOfMemory => Err(JobFault::OutOfMemory),
        Err(_) => Err(JobFault::Usage(Word::new(
            rt.alloc(),
            "error: an argument is not valid UTF-8\n",
        )?)),
    }
}

/// A seed for the hashes of names: random bits of the system, which no author of a file knows; if the system has none, the fixed
/// seed. Only the time of the job depends on it.
fn random_seed<R: RandomSource>(rt: &R) -> HashSeed {
    let mut bits = [0; 16];
    match rt.fill_bytes(&mut bits) {
        Ok(()) => HashSeed::new(u128::from_le_bytes(bits)),
        Err(_) => FIXED_SEED,
    }
}

fn main(rt: HostRuntime) -> ExitCode {
    let job = requested_job(&rt);
    let status = perform_on_inputs(
        &rt,
        random_seed(&rt),
        &job,
        &mut ToWrite::new(io::writer(&rt)),
        &mut ToWrite::new(rt.stderr()),
    );
    ExitCode::from(status)
}
