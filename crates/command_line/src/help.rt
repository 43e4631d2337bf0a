// The help texts of the program and of its commands.

/// The help text of a subcommand.
#[derive(Clone, Copy)]
pub struct HelpText<'a> {
    /// How it is called.
    pub usage: &'a str,
    /// What it does, in one line.
    pub does: &'a str,
    /// The text behind its arguments and options.
    pub more: &'a str,
}

/// What the program does.
pub const PROGRAM: &str = "Checks and runs networks of signal functions.";

/// The program's version, the language's, and what both are proved with.
pub const VERSION: &str = "\
2.1
language 3, 2 and 1
proved with rattle-kit-13f, logic dac8208d650f15bf";

/// The text behind the program's commands and options.
pub const PROGRAM_MORE: &str = "\
A network is a text file: the type of its input, and a signal function, which maps each sample of a
timed stream to an output. `yampa types NET` prints its types, `yampa run NET < STREAM` runs it.
`yampa check SRC TGT CERT` checks a certificate, a list of rewrite steps from one network to another:
if it is accepted, both output the same on every stream. `yampa optimise NET` rewrites a network by
itself and can print the certificate too. To write steps by hand, `yampa outline NET` prints the
position of each part, `yampa laws NET` the steps that are possible, and `yampa apply SRC CERT` the
network that steps lead to. `yampa compile NET` prints it as C. Only `run` and `run-checked` read a
stream. `improve`, which finds more steps, and `certify`, which finds those between two networks, are
commands of `./yampa`: a search beside this program finds them, and this program accepts them.
The pages are in the folder `docs` of the repository: LANGUAGE.md teaches the language, LAWS.md the
laws, C.md what `compile` prints, and TOOLS.md the tools that `./yampa` adds to these commands. A small
file NET, which outputs 0, and then each number plus one, one sample late:

  yampa 1
  input Int
  (>>> (arr (add x 1)) (iPre 0))

Exit status:
  0  success, or help was asked for
  1  a file, a step or the stream is rejected, the network has no position P, the network to run has more than 4,096 different expressions, or the C would be too large
  2  the command line is wrong; this includes a P that is no position and an N that is no number
  3  something can't be read or written, or there is not enough memory
If it isn't 0, standard error says why.";

/// What is told of a command that isn't the program's own.
pub const BESIDE: &str =
    "`improve` and `certify` are commands of `./yampa`, which asks a search beside this program";

/// Help on NET.
pub const NET: &str =
    "The network's file: `yampa 1` or `yampa 2`, `input` and a type, and the network";

/// Help on `types`.
pub const TYPES: HelpText<'static> = HelpText {
    usage: "yampa types <NET>",
    does: "Checks a network, and prints its types, weight and height",
    more: "\
It prints three lines: the types of the input and the output; the weight, which counts the networks
that it is made of, more than once where they may run more than once; and the height, the number of
networks nested in one another.

Example: if the file `net` holds `yampa 1 input Int (>>> (arr (less 9 x)) (iPre false))`,

  $ yampa types net
  Int -> Bool
  weight 3
  height 2

`yampa --help` lists the exit statuses.",
};

/// Help on `run`.
pub const RUN: HelpText<'static> = HelpText {
    usage: "yampa run <NET> < STREAM",
    does: "Runs a network on the stream on standard input, and prints one output a sample",
    more: "\
Standard input has one sample a line. The first line is a value of the network's input type; each
later one is a step in time, at least 1, and a value: `+1 6`, or `+1 =` for the same value again.
Standard output has one line for each: the network's output. A faulty line ends the run, after the
outputs of the lines before it.

Example: if the file `net` holds `yampa 1 input Int (>>> (arr (add x 1)) (iPre 0))`,

  $ printf '5\\n+1 6\\n+1 7\\n' | yampa run net
  0
  6
  7

`yampa --help` lists the exit statuses.",
};

/// Help on `optimise`.
pub const OPTIMISE: HelpText<'static> = HelpText {
    usage: "yampa optimise [OPTIONS] <NET>",
    does: "Rewrites a network by laws, and prints the result",
    more: "\
It takes the first possible step forward by one of its laws, and then the next, until there is none
or 1,000 are taken. `yampa check` accepts the certificate from NET to the network that is printed, if
the files are within their limits: so both output the same on every stream. The result is meant to be
faster, but that isn't promised.

Example: if the file `net` holds `yampa 1 input Int (>>> (arr (add x 1)) (arr (mul x 2)))`,

  $ yampa optimise net
  yampa 1
  input Int
  (arr (then (add x 1) (mul x 2)))
  $ yampa optimise net --certificate
  laws 1
  (step L4 forward (at))

`yampa --help` lists the exit statuses.",
};

/// Help on `--certificate`.
pub const CERTIFICATE: &str = "Prints the certificate instead of the network";

/// Help on `--at`.
pub const AT: &str = "The position to begin at, such as `'(at 1 0)'`, instead of the whole network";

/// Help on `--first`.
pub const FIRST: &str = "Takes only the first N steps, or all if there are fewer";

/// Help on `--steps`.
pub const STEPS: &str = "Prints what each step does, instead of the network that they lead to";

/// Help on SRC.
pub const SRC: &str = "The file of the network that the certificate begins with";

/// Help on TGT.
pub const TGT: &str = "The file of the network that the certificate leads to";

/// Help on CERT.
pub const CERT: &str =
    "The certificate's file: `laws 1`, `2` or `3`, and steps, such as `(step L4 forward (at))`";

/// Help on `check`.
pub const CHECK: HelpText<'static> = HelpText {
    usage: "yampa check <SRC> <TGT> <CERT>",
    does: "Checks that a certificate leads from one network to another",
    more: "\
A certificate is a text file of steps. A step names a law, its direction and a position in the
network; a `backward` step also gives the tree that then stands there. If the steps lead from SRC to
TGT, both networks output the same on every stream, and one line with the number of steps is printed.

Example: if the file `source` holds `yampa 1 input Int (>>> (arr (add x 1)) (arr (mul x 2)))`,
the file `target` holds `yampa 1 input Int (arr (then (add x 1) (mul x 2)))`, and the file `steps`
holds `laws 1 (step L4 forward (at))`,

  $ yampa check source target steps
  accepted 1

`yampa --help` lists the exit statuses.",
};

/// Help on `run-checked`.
pub const RUN_CHECKED: HelpText<'static> = HelpText {
    usage: "yampa run-checked <SRC> <TGT> <CERT> < STREAM",
    does: "Checks a certificate, and runs the network that it leads to",
    more: "\
It checks the certificate as `yampa check SRC TGT CERT` does, but prints no line for it. If it is
accepted, the network of TGT is run on standard input, as by `yampa run TGT`.

Example: with the three files of the example in `yampa check --help`,

  $ printf '5\\n+1 6\\n' | yampa run-checked source target steps
  12
  14

`yampa --help` lists the exit statuses.",
};

/// Help on `outline`.
pub const OUTLINE: HelpText<'static> = HelpText {
    usage: "yampa outline <NET>",
    does: "Prints the parts of a network with their positions and types",
    more: "\
It prints one line for each network and each expression in it, in the order of the text, indented by
two blanks a level. Four columns, with tabs between them: its position, as steps of certificates have
it; its first word; its type (of a network that of its output); and, of a network, its own weight, in
which an `(old k)` counts 1.

Example: if the file `net` holds `yampa 1 input Int (>>> (arr (add x 1)) (arr (mul x 2)))`,

  $ yampa outline net | head -5 | expand -t 22
  (at)                  >>>                   Int                   3
    (at 0)              arr                   Int                   1
      (at 0 0)          add                   Int
        (at 0 0 0)      x                     Int
        (at 0 0 1)      1                     Int

`yampa --help` lists the exit statuses.",
};

/// Help on `laws`.
pub const LAWS: HelpText<'static> = HelpText {
    usage: "yampa laws [OPTIONS] <NET>",
    does: "Prints the steps that are possible in a network",
    more: "\
It prints each possible forward step, as a certificate has it, at P and at each position below it,
then `- ` and what stands at its position, then `+ ` and what stands there after it. In a tree of over
100 bytes the deepest parts are `..`; where both lines would then be the same, each shows its tree
around their first difference. A step is possible if its law fits what stands there and the resulting
network is typed within the limits.

Example: if the file `net` holds `yampa 1 input Int (>>> (arr (add x 1)) (arr (mul x 2)))`,

  $ yampa laws net
  (step L4 forward (at))
  - (>>> (arr (add x 1)) (arr (mul x 2)))
  + (arr (then (add x 1) (mul x 2)))
  (step E16 forward (at 0 0))
  - (add x 1)
  + (add 1 x)
  (step E20 forward (at 1 0))
  - (mul x 2)
  + (mul 2 x)

`yampa --help` lists the exit statuses.",
};

/// Help on `apply`.
pub const APPLY: HelpText<'static> = HelpText {
    usage: "yampa apply [OPTIONS] <SRC> <CERT>",
    does: "Takes the steps of a certificate, and prints the network that they lead to",
    more: "\
It takes the steps of CERT one by one, beginning with the network of SRC. With `--steps` it prints
each step, then `- ` and what stood at its position, then `+ ` and what stands there now. The first
step that can't be taken ends it, and standard error names it. With `--steps` the steps before it are
printed, then this step, then `- ` and what stands at its position, if there is such a position, and,
if it gives a tree that its law rewrites, `> ` and what that becomes: if the two are the same, the
step should be `backward`.

Example: if the file `net` holds `yampa 1 input Int (>>> (arr (add x 1)) (arr (mul x 2)))`, and
the file `steps` holds `laws 1 (step L4 forward (at))`,

  $ yampa apply net steps
  yampa 1
  input Int
  (arr (then (add x 1) (mul x 2)))
  $ yampa apply net steps --steps
  (step L4 forward (at))
  - (>>> (arr (add x 1)) (arr (mul x 2)))
  + (arr (then (add x 1) (mul x 2)))

`yampa --help` lists the exit statuses.",
};

/// Help on `--name`.
pub const NAME: &str = "What all names begin with (yampa)";

/// Help on `--no-main`.
pub const NO_MAIN: &str = "Leaves out the `main`";

/// Help on `--header`.
pub const HEADER: &str = "Prints the declarations alone";

/// Help on `--most`.
pub const MOST: &str = "How many elements a list of the input may have (32765)";

/// Help on `--unchecked`.
pub const UNCHECKED: &str =
    "Leaves out the step's tests, of dt and of lists: the caller sees to both";

/// Help on `compile`.
pub const COMPILE: HelpText<'static> = HelpText {
    usage: "yampa compile [OPTIONS] <NET>",
    does: "Prints a network as C",
    more: "\
It prints a file of C99, which C++11 takes too: a struct of what the network keeps, a function that
takes a sample, and a `main` that does what `run` does. The function returns false, and does nothing,
where the time since the sample before is less than 1, or a list has more elements than its array. If
the struct would have more than 64 MiB, the network is rejected.

Example: if the file `net` holds `yampa 1 input Int (>>> (arr (add x 1)) (iPre 0))`,

  $ yampa compile net > net.c
  $ cc -O2 -o network net.c
  $ printf '5\\n+1 6\\n+1 7\\n' | ./network
  0
  6
  7

`yampa --help` lists the exit statuses.",
};

/// Help on `compile-checked`.
pub const COMPILE_CHECKED: HelpText<'static> = HelpText {
    usage: "yampa compile-checked [OPTIONS] <SRC> <TGT> <CERT>",
    does: "Checks a certificate, and prints the network that it leads to as C",
    more: "\
If the certificate is accepted, the network of TGT is printed, as by `yampa compile TGT`.

`yampa --help` lists the exit statuses.",
};
