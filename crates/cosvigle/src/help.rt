//! The texts that the program prints about itself.

/// The text that `--help` prints.
pub const HELP: &str = "\
usage: cosvigle [OPTION].. [SYMBOL]..

Prints the declaration of each C++ symbol, or the symbol itself if it isn't
read, one a line. Without symbols it copies standard input, with declarations in
place of symbols.

  -_, --strip-underscore     each symbol has one more underscore in front
  -n, --no-strip-underscores no symbol has (default)
  -p, --no-params            print names, without parameters
  -i, --no-verbose           print std::string and the like in short
  -t, --types                read what is no symbol as a type: i is int
  -s, --format=FORMAT        auto or gnu-v3: read symbols; none: read no symbol
  -l, --lines                each line of the input is one symbol; -_ is ignored
      --style=STYLE          as gnu prints them (default), gnu-short or llvm
      --no-return            print no return types
      --max-memory=BYTES     leave symbols that need more memory
  -h, --help; -v, --version  print this text; print the version
  @FILE                      stands for the words of this file
  --                         all arguments after it are symbols
  no effect: -r, --no-recurse-limit; -R, --recurse-limit
Letters may be grouped, and long names may be shortened. Called as llvm-cxxfilt
its style is llvm.

examples:
  cosvigle _ZN3Foo3barEi     prints Foo::bar(int)
  nm libfoo.so | cosvigle    prints declarations in place of symbols
  cosvigle < trace.txt       prints a stack trace with declarations
";

/// The text that `--version` prints.
pub const VERSION: &str = "cosvigle 0.1.0\n";
