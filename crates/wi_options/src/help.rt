//! What `--help` tells beside the options.

/// The program's version, as the file VERSION of the repository has it.
pub(crate) const VERSION: &str = "0.1.0";

/// How the program is called.
pub(crate) const USAGE: &str = "\
whatif [--load FILE] [--keep N]
       a script comes on standard input: whatif < FILE";

/// What the program does.
pub(crate) const ABOUT: &str =
    "Runs a script of spreadsheet commands from standard input and writes the replies to standard output.";

/// The commands of a script and the refusals, a line each.
pub(crate) const COMMANDS_AND_REFUSALS: &str = "\
Commands, a line each:
  set ADDR CONTENT             puts a number, a text or a formula into a cell
  clear RECT                   empties cells
  fill ADDR RECT               copies a cell's content, its relative references moved along
  csv ADDR LINES               puts the CSV of the next LINES lines into cells
  scenario NAME ADDR CONTENT   replaces a cell's content in a scenario
  scenario NAME ADDR           takes the replacement away
  drop NAME                    removes a scenario
  base NAME OTHER              bases a scenario on another
  base NAME                    bases it on none
  use NAME                     shows cells in a scenario from now on
  use                          shows them without one
  as SESSION                   goes on as another session
  show RECT                    writes what cells show, a record for each row
  export RECT                  writes the same, behind the number of its lines
  changes                      writes what differs from the last changes of the session
  compare S T RECT             writes the cells that differ in two scenarios, - being none
  table F R XCOLUMN            writes what F shows with each cell of XCOLUMN in R's place
  table F R XCOLUMN C YROW     the same, with each cell of YROW in C's place too
  formula ADDR                 writes a cell's content
  force COMMAND                does set, clear, fill or csv where it would be refused as E18

Refusals, after which all is as before:
  E01  memory is short
  E02  no such command, or wrong words
  E03  the line is too long or no UTF-8
  E04  an address is outside the sheet
  E05  the formula's syntax
  E06  the formula is nested too deep
  E07  a number in the formula doesn't fit
  E08  the text or formula is too long
  E09  too many cells would be filled
  E10  no such scenario
  E11  too many scenarios, replacements or sessions
  E12  the scenario is in use
  E13  the script ends before the last line of CSV
  E14  a field is no UTF-8
  E15  the area is too large
  E16  a reference would leave the sheet
  E17  too many edits
  E18  another session changed the cell that is named behind the number
  E19  a scenario would be based on itself";
