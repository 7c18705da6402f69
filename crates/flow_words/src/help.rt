/// What `--help` writes, in the layout of `clap`.
pub const HELP: &[u8] = b"Checks, drives, runs and audits workflows.

Usage: flow [OPTIONS] <MODE>

Modes:
  drive  Drive a workflow by a session
  run    Run a workflow by workers
  check  Say whether some execution of a workflow meets its constraints
  verify Say whether all executions have a property, or a constraint follows from the others
  trace  Say whether a journal is an execution of a workflow
  gen    Write a generated workflow; no input is read
  large  Run a generated workflow by workers; no input is read
  duty   Drive a workflow by a session of users, under a policy
  audit  Say of each of many journals whether it is an execution, by workers

Options:
      --steps N    Greatest length of a history, 1 to 1000000 [default: 65536]
      --workers N  Workers of run, large and audit, 1 to 64 [default: 4]
      --seed N     What a workflow is generated from, 0 to 65536 [default: 1]
      --size N     Blocks of eight events in a generated workflow, 1 to 128 [default: 16]
  -h, --help       Print help
  -V, --version    Print version

The standard input has the text of the workflow. A line %% ends it, and behind that line stands what
the mode needs besides: a session, a query, a journal or several, a policy and a session.
";

/// What `--version` writes.
pub const VERSION: &[u8] = b"flow 1\n";
