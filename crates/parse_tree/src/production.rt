//! The productions of the grammar, by number. Written by tools/grammar from tools/grammar.txt.

/// Program: Items
pub const PROGRAM_ITEMS: u16 = 0;
/// Item: `Procedure` `Name` `Colon` Statements `End` ProcedureWord `Period`
pub const ITEM_PROCEDURE: u16 = 1;
/// Item: Statement
pub const ITEM_STATEMENT: u16 = 2;
/// Statement: `Name` `Colon` Block
pub const STATEMENT_NAME: u16 = 3;
/// Statement: Block
pub const STATEMENT_BLOCK: u16 = 4;
/// Statement: Assignment
pub const STATEMENT_ASSIGNMENT: u16 = 5;
/// Statement: Record
pub const STATEMENT_RECORD: u16 = 6;
/// Statement: Flow
pub const STATEMENT_FLOW: u16 = 7;
/// Statement: Streaming
pub const STATEMENT_STREAMING: u16 = 8;
/// Statement: `Define` Definition `Period`
pub const STATEMENT_DEFINE: u16 = 9;
/// Statement: `If` Expression `Then` Statement ElseBranch
pub const STATEMENT_IF: u16 = 10;
/// Block: DoOrRepeat StrongBuffers Header `Colon` Statements `End` `Period`
pub const BLOCK_DO_OR_REPEAT: u16 = 11;
/// Block: `For` WhichRecords `Name` RecordOptions Header `Colon` Statements `End` `Period`
pub const BLOCK_FOR: u16 = 12;
/// Header: Counting Phrases
pub const HEADER_COUNTING: u16 = 13;
/// Phrase: `While` Expression
pub const PHRASE_WHILE: u16 = 14;
/// Phrase: `Transaction`
pub const PHRASE_TRANSACTION: u16 = 15;
/// Phrase: `On` Condition `Undo` OptionalName OptionalAction
pub const PHRASE_ON: u16 = 16;
/// Action: LeaveNextOrRetry OptionalName
pub const ACTION_LEAVE_NEXT_OR_RETRY: u16 = 17;
/// Action: `Return` ErrorWord OptionalExpression
pub const ACTION_RETURN: u16 = 18;
/// RecordOption: `Where` Expression
pub const RECORD_OPTION_WHERE: u16 = 19;
/// RecordOption: `UseIndex` `Name`
pub const RECORD_OPTION_USE_INDEX: u16 = 20;
/// RecordOption: `NoLock`
pub const RECORD_OPTION_NO_LOCK: u16 = 21;
/// RecordOption: `ShareLock`
pub const RECORD_OPTION_SHARE_LOCK: u16 = 22;
/// RecordOption: `ExclusiveLock`
pub const RECORD_OPTION_EXCLUSIVE_LOCK: u16 = 23;
/// Definition: `Variable` `Name` `As` DataType VariableOptions
pub const DEFINITION_VARIABLE: u16 = 24;
/// Definition: `Buffer` `Name` `For` `Name`
pub const DEFINITION_BUFFER: u16 = 25;
/// Definition: `Stream` `Name`
pub const DEFINITION_STREAM: u16 = 26;
/// Definition: Direction `Parameter` `Name` `As` DataType VariableOptions
pub const DEFINITION_DIRECTION: u16 = 27;
/// DataType: `Character`
pub const DATA_TYPE_CHARACTER: u16 = 28;
/// DataType: `Integer`
pub const DATA_TYPE_INTEGER: u16 = 29;
/// DataType: `Int64`
pub const DATA_TYPE_INT64: u16 = 30;
/// DataType: `Decimal`
pub const DATA_TYPE_DECIMAL: u16 = 31;
/// DataType: `Logical`
pub const DATA_TYPE_LOGICAL: u16 = 32;
/// DataType: `Date`
pub const DATA_TYPE_DATE: u16 = 33;
/// VariableOption: `NoUndo`
pub const VARIABLE_OPTION_NO_UNDO: u16 = 34;
/// VariableOption: `Initial` Literal
pub const VARIABLE_OPTION_INITIAL: u16 = 35;
/// VariableOption: FormatOrLabel `TextLiteral`
pub const VARIABLE_OPTION_FORMAT_OR_LABEL: u16 = 36;
/// Literal: LiteralSign LiteralNumber
pub const LITERAL_LITERAL_SIGN: u16 = 37;
/// Literal: `TextLiteral`
pub const LITERAL_TEXT_LITERAL: u16 = 38;
/// Literal: `DateLiteral`
pub const LITERAL_DATE_LITERAL: u16 = 39;
/// Literal: `Yes`
pub const LITERAL_YES: u16 = 40;
/// Literal: `No`
pub const LITERAL_NO: u16 = 41;
/// Literal: `True`
pub const LITERAL_TRUE: u16 = 42;
/// Literal: `False`
pub const LITERAL_FALSE: u16 = 43;
/// Literal: `QuestionMark`
pub const LITERAL_QUESTION_MARK: u16 = 44;
/// Assignment: Target `Equals` RightSide NoErrorWord `Period`
pub const ASSIGNMENT_TARGET: u16 = 45;
/// Assignment: `Assign` Assignments NoErrorWord `Period`
pub const ASSIGNMENT_ASSIGN: u16 = 46;
/// Target: `Name`
pub const TARGET_NAME: u16 = 47;
/// Target: `QualifiedName`
pub const TARGET_QUALIFIED_NAME: u16 = 48;
/// RightSide: SequenceFunction `LeftParenthesis` `Name` `RightParenthesis`
pub const RIGHT_SIDE_SEQUENCE_FUNCTION: u16 = 49;
/// RightSide: Expression
pub const RIGHT_SIDE_EXPRESSION: u16 = 50;
/// Record: `Find` FindWhich `Name` FindOptions `Period`
pub const RECORD_FIND: u16 = 51;
/// Record: RecordVerb `Name` NoErrorWord `Period`
pub const RECORD_RECORD_VERB: u16 = 52;
/// Flow: `Undo` OptionalName OptionalAction `Period`
pub const FLOW_UNDO: u16 = 53;
/// Flow: LeaveOrNext OptionalName `Period`
pub const FLOW_LEAVE_OR_NEXT: u16 = 54;
/// Flow: `Return` ErrorWord OptionalExpression `Period`
pub const FLOW_RETURN: u16 = 55;
/// Flow: `Stop` `Period`
pub const FLOW_STOP: u16 = 56;
/// Flow: `Run` `Name` ArgumentList NoErrorWord `Period`
pub const FLOW_RUN: u16 = 57;
/// Argument: InputWord Expression
pub const ARGUMENT_INPUT_WORD: u16 = 58;
/// Argument: OutputDirection `Name`
pub const ARGUMENT_OUTPUT_DIRECTION: u16 = 59;
/// Streaming: `Import` StreamChoice ImportTargets NoErrorWord `Period`
pub const STREAMING_IMPORT: u16 = 60;
/// Streaming: `Export` StreamChoice Expressions `Period`
pub const STREAMING_EXPORT: u16 = 61;
/// Streaming: `Put` StreamChoice UnformattedWord PutItems `Period`
pub const STREAMING_PUT: u16 = 62;
/// Streaming: `Message` Expressions `Period`
pub const STREAMING_MESSAGE: u16 = 63;
/// Streaming: `Input` StreamChoice InputSource `Period`
pub const STREAMING_INPUT: u16 = 64;
/// Streaming: `Output` StreamChoice OutputGoal `Period`
pub const STREAMING_OUTPUT: u16 = 65;
/// StreamChoice: NamedStream
pub const STREAM_CHOICE_NAMED_STREAM: u16 = 66;
/// PutItem: Expression PutFormat
pub const PUT_ITEM_EXPRESSION: u16 = 67;
/// PutItem: SkipOrSpace RepeatCount
pub const PUT_ITEM_SKIP_OR_SPACE: u16 = 68;
/// Expression: `If` Expression `Then` Expression `Else` Expression
pub const EXPRESSION_IF: u16 = 69;
/// Expression: Conjunction OrOthers
pub const EXPRESSION_CONJUNCTION: u16 = 70;
/// Conjunction: Negation AndOthers
pub const CONJUNCTION_NEGATION: u16 = 71;
/// Negation: `Not` Negation
pub const NEGATION_NOT: u16 = 72;
/// Negation: Sum ComparedWith
pub const NEGATION_SUM: u16 = 73;
/// Comparison: `Equals`
pub const COMPARISON_EQUALS: u16 = 74;
/// Comparison: `NotEqual`
pub const COMPARISON_NOT_EQUAL: u16 = 75;
/// Comparison: `Less`
pub const COMPARISON_LESS: u16 = 76;
/// Comparison: `Greater`
pub const COMPARISON_GREATER: u16 = 77;
/// Comparison: `LessOrEqual`
pub const COMPARISON_LESS_OR_EQUAL: u16 = 78;
/// Comparison: `GreaterOrEqual`
pub const COMPARISON_GREATER_OR_EQUAL: u16 = 79;
/// Comparison: `Eq`
pub const COMPARISON_EQ: u16 = 80;
/// Comparison: `Ne`
pub const COMPARISON_NE: u16 = 81;
/// Comparison: `Lt`
pub const COMPARISON_LT: u16 = 82;
/// Comparison: `Gt`
pub const COMPARISON_GT: u16 = 83;
/// Comparison: `Le`
pub const COMPARISON_LE: u16 = 84;
/// Comparison: `Ge`
pub const COMPARISON_GE: u16 = 85;
/// Comparison: `Begins`
pub const COMPARISON_BEGINS: u16 = 86;
/// Sum: Product AddedOthers
pub const SUM_PRODUCT: u16 = 87;
/// Product: Signed MultipliedOthers
pub const PRODUCT_SIGNED: u16 = 88;
/// Signed: PlusOrMinus Signed
pub const SIGNED_PLUS_OR_MINUS: u16 = 89;
/// Signed: Primary
pub const SIGNED_PRIMARY: u16 = 90;
/// Primary: `WholeNumber`
pub const PRIMARY_WHOLE_NUMBER: u16 = 91;
/// Primary: `DecimalNumber`
pub const PRIMARY_DECIMAL_NUMBER: u16 = 92;
/// Primary: `TextLiteral`
pub const PRIMARY_TEXT_LITERAL: u16 = 93;
/// Primary: `DateLiteral`
pub const PRIMARY_DATE_LITERAL: u16 = 94;
/// Primary: `Yes`
pub const PRIMARY_YES: u16 = 95;
/// Primary: `No`
pub const PRIMARY_NO: u16 = 96;
/// Primary: `True`
pub const PRIMARY_TRUE: u16 = 97;
/// Primary: `False`
pub const PRIMARY_FALSE: u16 = 98;
/// Primary: `QuestionMark`
pub const PRIMARY_QUESTION_MARK: u16 = 99;
/// Primary: `Name`
pub const PRIMARY_NAME: u16 = 100;
/// Primary: `QualifiedName`
pub const PRIMARY_QUALIFIED_NAME: u16 = 101;
/// Primary: `LeftParenthesis` Expression `RightParenthesis`
pub const PRIMARY_LEFT_PARENTHESIS: u16 = 102;
/// Primary: `Retry`
pub const PRIMARY_RETRY: u16 = 103;
/// Primary: `ReturnValue`
pub const PRIMARY_RETURN_VALUE: u16 = 104;
/// Primary: `ErrorStatus` `Colon` `Error`
pub const PRIMARY_ERROR_STATUS: u16 = 105;
/// Primary: RecordTest TestedName
pub const PRIMARY_RECORD_TEST: u16 = 106;
/// Primary: `String` `LeftParenthesis` Expression StringFormat `RightParenthesis`
pub const PRIMARY_STRING: u16 = 107;
/// Primary: Function `LeftParenthesis` Expression MoreExpressions `RightParenthesis`
pub const PRIMARY_FUNCTION: u16 = 108;
/// Function: `Integer`
pub const FUNCTION_INTEGER: u16 = 109;
/// Function: `Int64`
pub const FUNCTION_INT64: u16 = 110;
/// Function: `Decimal`
pub const FUNCTION_DECIMAL: u16 = 111;
/// Function: `Substring`
pub const FUNCTION_SUBSTRING: u16 = 112;
/// Function: `Length`
pub const FUNCTION_LENGTH: u16 = 113;
/// Function: `Entry`
pub const FUNCTION_ENTRY: u16 = 114;
/// Function: `NumEntries`
pub const FUNCTION_NUM_ENTRIES: u16 = 115;
/// Function: `Date`
pub const FUNCTION_DATE: u16 = 116;
/// Function: `Year`
pub const FUNCTION_YEAR: u16 = 117;
/// Function: `Month`
pub const FUNCTION_MONTH: u16 = 118;
/// Function: `Day`
pub const FUNCTION_DAY: u16 = 119;
/// Items: Item Items
pub const ITEMS_ITEM: u16 = 120;
/// Items: nothing
pub const ITEMS_NONE: u16 = 121;
/// Statements: Statement Statements
pub const STATEMENTS_STATEMENT: u16 = 122;
/// Statements: nothing
pub const STATEMENTS_NONE: u16 = 123;
/// ProcedureWord: `Procedure`
pub const PROCEDURE_WORD_PROCEDURE: u16 = 124;
/// ProcedureWord: nothing
pub const PROCEDURE_WORD_NONE: u16 = 125;
/// ElseBranch: `Else` Statement
pub const ELSE_BRANCH_ELSE: u16 = 126;
/// ElseBranch: nothing
pub const ELSE_BRANCH_NONE: u16 = 127;
/// DoOrRepeat: `Do`
pub const DO_OR_REPEAT_DO: u16 = 128;
/// DoOrRepeat: `Repeat`
pub const DO_OR_REPEAT_REPEAT: u16 = 129;
/// MoreNames: `Comma` `Name` MoreNames
pub const MORE_NAMES_COMMA: u16 = 130;
/// MoreNames: nothing
pub const MORE_NAMES_NONE: u16 = 131;
/// StrongBuffers: `For` `Name` MoreNames
pub const STRONG_BUFFERS_FOR: u16 = 132;
/// StrongBuffers: nothing
pub const STRONG_BUFFERS_NONE: u16 = 133;
/// WhichRecords: `Each`
pub const WHICH_RECORDS_EACH: u16 = 134;
/// WhichRecords: `First`
pub const WHICH_RECORDS_FIRST: u16 = 135;
/// WhichRecords: `Last`
pub const WHICH_RECORDS_LAST: u16 = 136;
/// RecordOptions: RecordOption RecordOptions
pub const RECORD_OPTIONS_RECORD_OPTION: u16 = 137;
/// RecordOptions: nothing
pub const RECORD_OPTIONS_NONE: u16 = 138;
/// Step: `By` Expression
pub const STEP_BY: u16 = 139;
/// Step: nothing
pub const STEP_NONE: u16 = 140;
/// Counting: `Name` `Equals` Expression `To` Expression Step
pub const COUNTING_NAME: u16 = 141;
/// Counting: nothing
pub const COUNTING_NONE: u16 = 142;
/// Phrases: Phrase Phrases
pub const PHRASES_PHRASE: u16 = 143;
/// Phrases: nothing
pub const PHRASES_NONE: u16 = 144;
/// Condition: `Error`
pub const CONDITION_ERROR: u16 = 145;
/// Condition: `Endkey`
pub const CONDITION_ENDKEY: u16 = 146;
/// OptionalName: `Name`
pub const OPTIONAL_NAME_NAME: u16 = 147;
/// OptionalName: nothing
pub const OPTIONAL_NAME_NONE: u16 = 148;
/// OptionalAction: `Comma` Action
pub const OPTIONAL_ACTION_COMMA: u16 = 149;
/// OptionalAction: nothing
pub const OPTIONAL_ACTION_NONE: u16 = 150;
/// LeaveNextOrRetry: `Leave`
pub const LEAVE_NEXT_OR_RETRY_LEAVE: u16 = 151;
/// LeaveNextOrRetry: `Next`
pub const LEAVE_NEXT_OR_RETRY_NEXT: u16 = 152;
/// LeaveNextOrRetry: `Retry`
pub const LEAVE_NEXT_OR_RETRY_RETRY: u16 = 153;
/// ErrorWord: `Error`
pub const ERROR_WORD_ERROR: u16 = 154;
/// ErrorWord: nothing
pub const ERROR_WORD_NONE: u16 = 155;
/// OptionalExpression: Expression
pub const OPTIONAL_EXPRESSION_EXPRESSION: u16 = 156;
/// OptionalExpression: nothing
pub const OPTIONAL_EXPRESSION_NONE: u16 = 157;
/// VariableOptions: VariableOption VariableOptions
pub const VARIABLE_OPTIONS_VARIABLE_OPTION: u16 = 158;
/// VariableOptions: nothing
pub const VARIABLE_OPTIONS_NONE: u16 = 159;
/// Direction: `Input`
pub const DIRECTION_INPUT: u16 = 160;
/// Direction: `Output`
pub const DIRECTION_OUTPUT: u16 = 161;
/// Direction: `InputOutput`
pub const DIRECTION_INPUT_OUTPUT: u16 = 162;
/// FormatOrLabel: `Format`
pub const FORMAT_OR_LABEL_FORMAT: u16 = 163;
/// FormatOrLabel: `Label`
pub const FORMAT_OR_LABEL_LABEL: u16 = 164;
/// LiteralSign: `Minus`
pub const LITERAL_SIGN_MINUS: u16 = 165;
/// LiteralSign: nothing
pub const LITERAL_SIGN_NONE: u16 = 166;
/// LiteralNumber: `WholeNumber`
pub const LITERAL_NUMBER_WHOLE_NUMBER: u16 = 167;
/// LiteralNumber: `DecimalNumber`
pub const LITERAL_NUMBER_DECIMAL_NUMBER: u16 = 168;
/// NoErrorWord: `NoError`
pub const NO_ERROR_WORD_NO_ERROR: u16 = 169;
/// NoErrorWord: nothing
pub const NO_ERROR_WORD_NONE: u16 = 170;
/// Assignments: Target `Equals` RightSide Assignments
pub const ASSIGNMENTS_TARGET: u16 = 171;
/// Assignments: nothing
pub const ASSIGNMENTS_NONE: u16 = 172;
/// SequenceFunction: `NextValue`
pub const SEQUENCE_FUNCTION_NEXT_VALUE: u16 = 173;
/// SequenceFunction: `CurrentValue`
pub const SEQUENCE_FUNCTION_CURRENT_VALUE: u16 = 174;
/// FindWhich: `First`
pub const FIND_WHICH_FIRST: u16 = 175;
/// FindWhich: `Last`
pub const FIND_WHICH_LAST: u16 = 176;
/// FindWhich: `Next`
pub const FIND_WHICH_NEXT: u16 = 177;
/// FindWhich: `Prev`
pub const FIND_WHICH_PREV: u16 = 178;
/// FindWhich: `Current`
pub const FIND_WHICH_CURRENT: u16 = 179;
/// FindWhich: nothing
pub const FIND_WHICH_NONE: u16 = 180;
/// FindOptions: RecordOption FindOptions
pub const FIND_OPTIONS_RECORD_OPTION: u16 = 181;
/// FindOptions: `NoWait` FindOptions
pub const FIND_OPTIONS_NO_WAIT: u16 = 182;
/// FindOptions: `NoError` FindOptions
pub const FIND_OPTIONS_NO_ERROR: u16 = 183;
/// FindOptions: nothing
pub const FIND_OPTIONS_NONE: u16 = 184;
/// RecordVerb: `Create`
pub const RECORD_VERB_CREATE: u16 = 185;
/// RecordVerb: `Delete`
pub const RECORD_VERB_DELETE: u16 = 186;
/// RecordVerb: `Release`
pub const RECORD_VERB_RELEASE: u16 = 187;
/// LeaveOrNext: `Leave`
pub const LEAVE_OR_NEXT_LEAVE: u16 = 188;
/// LeaveOrNext: `Next`
pub const LEAVE_OR_NEXT_NEXT: u16 = 189;
/// MoreArguments: `Comma` Argument MoreArguments
pub const MORE_ARGUMENTS_COMMA: u16 = 190;
/// MoreArguments: nothing
pub const MORE_ARGUMENTS_NONE: u16 = 191;
/// Arguments: Argument MoreArguments
pub const ARGUMENTS_ARGUMENT: u16 = 192;
/// Arguments: nothing
pub const ARGUMENTS_NONE: u16 = 193;
/// ArgumentList: `LeftParenthesis` Arguments `RightParenthesis`
pub const ARGUMENT_LIST_LEFT_PARENTHESIS: u16 = 194;
/// ArgumentList: nothing
pub const ARGUMENT_LIST_NONE: u16 = 195;
/// InputWord: `Input`
pub const INPUT_WORD_INPUT: u16 = 196;
/// InputWord: nothing
pub const INPUT_WORD_NONE: u16 = 197;
/// OutputDirection: `Output`
pub const OUTPUT_DIRECTION_OUTPUT: u16 = 198;
/// OutputDirection: `InputOutput`
pub const OUTPUT_DIRECTION_INPUT_OUTPUT: u16 = 199;
/// ImportTargets: Target ImportTargets
pub const IMPORT_TARGETS_TARGET: u16 = 200;
/// ImportTargets: `Caret` ImportTargets
pub const IMPORT_TARGETS_CARET: u16 = 201;
/// ImportTargets: nothing
pub const IMPORT_TARGETS_NONE: u16 = 202;
/// Expressions: Expression Expressions
pub const EXPRESSIONS_EXPRESSION: u16 = 203;
/// Expressions: nothing
pub const EXPRESSIONS_NONE: u16 = 204;
/// UnformattedWord: `Unformatted`
pub const UNFORMATTED_WORD_UNFORMATTED: u16 = 205;
/// UnformattedWord: nothing
pub const UNFORMATTED_WORD_NONE: u16 = 206;
/// PutItems: PutItem PutItems
pub const PUT_ITEMS_PUT_ITEM: u16 = 207;
/// PutItems: nothing
pub const PUT_ITEMS_NONE: u16 = 208;
/// InputSource: `From` `TextLiteral`
pub const INPUT_SOURCE_FROM: u16 = 209;
/// InputSource: `Close`
pub const INPUT_SOURCE_CLOSE: u16 = 210;
/// AppendWord: `Append`
pub const APPEND_WORD_APPEND: u16 = 211;
/// AppendWord: nothing
pub const APPEND_WORD_NONE: u16 = 212;
/// OutputGoal: `To` `TextLiteral` AppendWord
pub const OUTPUT_GOAL_TO: u16 = 213;
/// OutputGoal: `Close`
pub const OUTPUT_GOAL_CLOSE: u16 = 214;
/// NamedStream: `Stream` `Name`
pub const NAMED_STREAM_STREAM: u16 = 215;
/// NamedStream: nothing
pub const NAMED_STREAM_NONE: u16 = 216;
/// PutFormat: `Format` `TextLiteral`
pub const PUT_FORMAT_FORMAT: u16 = 217;
/// PutFormat: nothing
pub const PUT_FORMAT_NONE: u16 = 218;
/// SkipOrSpace: `Skip`
pub const SKIP_OR_SPACE_SKIP: u16 = 219;
/// SkipOrSpace: `Space`
pub const SKIP_OR_SPACE_SPACE: u16 = 220;
/// RepeatCount: `LeftParenthesis` `WholeNumber` `RightParenthesis`
pub const REPEAT_COUNT_LEFT_PARENTHESIS: u16 = 221;
/// RepeatCount: nothing
pub const REPEAT_COUNT_NONE: u16 = 222;
/// OrOthers: `Or` Conjunction OrOthers
pub const OR_OTHERS_OR: u16 = 223;
/// OrOthers: nothing
pub const OR_OTHERS_NONE: u16 = 224;
/// AndOthers: `And` Negation AndOthers
pub const AND_OTHERS_AND: u16 = 225;
/// AndOthers: nothing
pub const AND_OTHERS_NONE: u16 = 226;
/// ComparedWith: Comparison Sum
pub const COMPARED_WITH_COMPARISON: u16 = 227;
/// ComparedWith: nothing
pub const COMPARED_WITH_NONE: u16 = 228;
/// PlusOrMinus: `Plus`
pub const PLUS_OR_MINUS_PLUS: u16 = 229;
/// PlusOrMinus: `Minus`
pub const PLUS_OR_MINUS_MINUS: u16 = 230;
/// AddedOthers: PlusOrMinus Product AddedOthers
pub const ADDED_OTHERS_PLUS_OR_MINUS: u16 = 231;
/// AddedOthers: nothing
pub const ADDED_OTHERS_NONE: u16 = 232;
/// ProductSign: `Star`
pub const PRODUCT_SIGN_STAR: u16 = 233;
/// ProductSign: `Slash`
pub const PRODUCT_SIGN_SLASH: u16 = 234;
/// ProductSign: `Modulo`
pub const PRODUCT_SIGN_MODULO: u16 = 235;
/// MultipliedOthers: ProductSign Signed MultipliedOthers
pub const MULTIPLIED_OTHERS_PRODUCT_SIGN: u16 = 236;
/// MultipliedOthers: nothing
pub const MULTIPLIED_OTHERS_NONE: u16 = 237;
/// RecordTest: `Available`
pub const RECORD_TEST_AVAILABLE: u16 = 238;
/// RecordTest: `Locked`
pub const RECORD_TEST_LOCKED: u16 = 239;
/// TestedName: `Name`
pub const TESTED_NAME_NAME: u16 = 240;
/// TestedName: `LeftParenthesis` `Name` `RightParenthesis`
pub const TESTED_NAME_LEFT_PARENTHESIS: u16 = 241;
/// StringFormat: `Comma` `TextLiteral`
pub const STRING_FORMAT_COMMA: u16 = 242;
/// StringFormat: nothing
pub const STRING_FORMAT_NONE: u16 = 243;
/// MoreExpressions: `Comma` Expression MoreExpressions
pub const MORE_EXPRESSIONS_COMMA: u16 = 244;
/// MoreExpressions: nothing
pub const MORE_EXPRESSIONS_NONE: u16 = 245;
/// How many productions there are.
pub const PRODUCTIONS: u16 = 246;
